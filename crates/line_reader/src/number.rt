ghost use Rattle.std.specs.Prelude.{◌≡◌, ℕ, min};
ghost use Rattle.std.specs.List.{list_all};
ghost use Rattle.std.specs.Char.{is_ascii_digit};
ghost use Rattle.text_model.specs.Line.{number};
ghost use Rattle.std.specs.Option.{option_map};
ghost use Rattle.reading_model.specs.Fields.{Reads, IsU64, is_number as number_test, any_number_in, number_in};

use std::str;

fn all_digits(text: &[u8]) -> bool
    ensures { result ≡ list_all is_ascii_digit text.now }
{
    text.iter().all(|c| c.is_ascii_digit())
}

fn is_number(text: &[u8]) -> bool
    ensures { result ≡ number_test text.now }
{
    match text {
        [] => false,
        [first, rest @ ..] => all_digits(text) && (!(*first == b'0') || rest.is_empty()),
    }
}

fn number_of(text: &[u8]) -> Option<u64>
    ensures { result ≡ number_in text.now }
{
    if !is_number(text) {
        return None;
    }
    let Ok(digits) = str::from_utf8(text) else {
        return None;
    };
    digits.parse().ok()
}

/// The number that a text spells in decimal, where it spells one below 2^64.
pub fn read_number(text: &[u8]) -> Option<u64>
    ensures reads { Reads number IsU64 text.now result }
    ensures value { result ≡ number_in text.now }
{
    number_of(text)
}

/// The number that a text spells in decimal, or `u64::MAX` where it spells a greater one.
pub fn read_saturated(text: &[u8]) -> Option<u64>
    ensures { result ≡ option_map (λ n. min n u64.MAX) (any_number_in text.now) }
{
    if !is_number(text) {
        return None;
    }
    let Ok(digits) = str::from_utf8(text) else {
        return None;
    };
    Some(digits.parse().unwrap_or(u64::MAX))
}
