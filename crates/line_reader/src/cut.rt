ghost use Rattle.std.specs.Prelude.{◌≡◌, ◌+◌, ◌==◌, length, IfSome};
ghost use Rattle.std.specs.List.{position};
ghost use Rattle.std.specs.Option.{option_map};
ghost use Rattle.reading_model.specs.Lines.{cut_in, line_in};

use memchr::memchr;

fn index_of(octet: u8, text: &[u8]) -> Option<usize>
    ensures value { result ≡ position (λ c. c == octet) text.now }
{
    memchr(octet, text)
}

/// What stands before the first such octet of a text, and what stands behind it.
#[tactic(auto, unfolding(reading_model::specs::Lines::cut_in))]
pub fn cut_at(octet: u8, text: &[u8]) -> Option<(&[u8], &[u8])>
    ensures cut { option_map (λ x. (x.0.now, x.1.now)) result ≡ cut_in octet text.now }
    ensures shorter { IfSome result (λ x. length x.0.now + length x.1.now + 1 ≡ length text.now) }
{
    let end = index_of(octet, text)?;
    Some((&text[..end], &text[end + 1..]))
}

/// The first line of a text, without its line end, and what stands behind it.
pub fn first_line(text: &[u8]) -> Option<(&[u8], &[u8])>
    ensures line { option_map (λ x. (x.0.now, x.1.now)) result ≡ line_in text.now }
    ensures shorter { IfSome result (λ x. length x.0.now + length x.1.now + 1 ≡ length text.now) }
{
    cut_at(b'\n', text)
}
