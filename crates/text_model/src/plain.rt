ghost use Rattle.std.specs.Prelude.{◌≡◌};
ghost use Rattle.std.specs.List.{list_all};
ghost use Rattle.text_model.specs.Line.{is_plain as plain_test, is_plain_in_path};

/// Whether an octet stands for itself in a name.
pub fn is_plain(c: u8) -> bool
    ensures { result ≡ plain_test c }
{
    b'!' <= c && c <= b'~' && c != b'%' && c != b'/'
}

/// Whether each octet stands for itself in a path.
pub fn are_plain(octets: &[u8]) -> bool
    ensures { result ≡ list_all is_plain_in_path octets.now }
{
    octets.iter().all(|c| is_plain(*c) || *c == b'/')
}
