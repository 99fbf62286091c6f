ghost use Rattle.std.specs.Prelude.{◌≡◌, ◌≤◌, ◌++◌, ℕ, List, length, take, drop, slice_index, IfOk};
ghost use Rattle.packet_model.specs.Length.{length_at, length_octets, two_octets};

use packet_model::{LengthFault, MAX_LENGTH};

/// The packet length at the front of some octets, and how many octets it has (RFC 2440, 4.2.2.1 and 4.2.2.2). `Cut` where
/// there is no octet or the second of two is missing, `First` where the first octet is over 223.
pub fn read_length(octets: &[u8]) -> Result<(usize, usize), LengthFault>
    ensures exact { result ≡ length_at octets.now }
    // What is read is what was written.
    ensures found { IfOk result (λ x. octets.now ≡ length_octets x.0 ++ drop x.1 octets.now) }
    ensures small { IfOk result (λ x. (x.0 ≤ MAX_LENGTH) × (x.1 ≡ length (length_octets x.0)) × (x.1 ≤ 2)) }
    // What was written is read again, whatever follows.
    ensures again { (n : ℕ) (rest : List ℕ) → n ≤ MAX_LENGTH → octets.now ≡ length_octets n ++ rest → result ≡ Ok (n, length (length_octets n)) }
{
    length_of(octets)
}

fn length_of(octets: &[u8]) -> Result<(usize, usize), LengthFault>
    ensures { result ≡ length_at octets.now }
{
    match octets {
        [] => Err(LengthFault::Cut),
        [first, rest @ ..] => {
            if *first < 192 {
                Ok((*first as usize, 1))
            } else if *first < 224 {
                two_octets_of(*first, rest)
            } else {
                Err(LengthFault::First(*first))
            }
        }
    }
}

fn two_octets_of(first: u8, rest: &[u8]) -> Result<(usize, usize), LengthFault>
    requires { 192 ≤ first }
    ensures { result ≡ two_octets first rest.now }
{
    match rest {
        [] => Err(LengthFault::Cut),
        [second, ..] => Ok(((first as usize - 192) * 256 + *second as usize + 192, 2)),
    }
}

/// The octets of a packet length, and how many of the two they are (RFC 2440, 4.2.2.1 and 4.2.2.2). Where it is one, the second
/// is 0.
pub fn write_length(len: u16) -> ([u8; 2], usize)
    requires { len ≤ MAX_LENGTH }
    ensures octets { take result.1 result.0 ≡ length_octets len }
    ensures count { result.1 ≡ length (length_octets len) }
    ensures within { result.1 ≤ 2 }
    ensures second { result.1 ≡ 1 → slice_index result.0 1 ≡ 0 }
{
    if len < 192 {
        ([len as u8, 0], 1)
    } else {
        let rest = len - 192;
        ([(192 + rest / 256) as u8, (rest % 256) as u8], 2)
    }
}
