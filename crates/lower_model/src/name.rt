ghost use Rattle.std.specs.Prelude.{◌≡◌};
ghost use Rattle.std.specs.List.{list_all};
ghost use Rattle.std.specs.Cmp.Lexicographic.{slice_cmp};
ghost use Rattle.lower_model.specs.LowerTree.{comes_before as before_test};
ghost use Rattle.lower_model.specs.Name.{is_name as name_test, is_dots as dots_test, is_name_octet};

fn is_dots(octets: &[u8]) -> bool
    ensures { result ≡ dots_test octets.now }
{
    octets.len() < 3 && octets.iter().all(|c| *c == b'.')
}

fn all_name_octets(octets: &[u8]) -> bool
    ensures { result ≡ list_all is_name_octet octets.now }
{
    octets.iter().all(|c| *c != 0 && *c != b'/')
}

/// Whether these octets can be a name: 1 to 255 of them, none 0 or a slash, and neither `.` nor `..`.
pub fn is_name(octets: &[u8]) -> bool
    ensures { result ≡ name_test octets.now }
{
    octets.len() < 256 && all_name_octets(octets) && !is_dots(octets)
}

/// Whether the first name stands before the second in octet order.
pub fn comes_before(first: &[u8], second: &[u8]) -> bool
    ensures { result ≡ before_test first.now second.now }
{
    first.cmp(second).is_lt()
}
