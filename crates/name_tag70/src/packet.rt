// The packet of a coded name.
ghost use Rattle.std.specs.Prelude.{◌≡◌, ◌≤◌, ◌+◌, ◌-◌, ◌%◌, length, length as len, IfOk, IsTrue};
ghost use Rattle.name_tag70.specs.Reading.{HasBlocks, cipher_in_packet as cipher_in_octets, seen};
ghost use Rattle.packet_model.specs.declared.length.TheConstants.{MAX_LENGTH};
ghost use Rattle.packet_model.specs.Length.{length_at};
ghost use Rattle.coding_model.specs.CodedName.{body_of as body_in, body_behind, cipher_of as cipher_in, is_sized as sized_test, is_body_length as length_test, are_zero_bits as zeros_test};

use coding_model::TAG70;
use name_form::NameFault;
use packet_length::read_length;
use packet_model::AES_128;

/// The encrypted name of the packet that some octets are, with no more than two zeros behind it. `Size`, `Tag`, `Size`, `WrongKey` and
/// `Cipher` come in this order.
pub fn cipher_in_packet<'a>(octets: &'a [u8], ours: &[u8; 8]) -> Result<&'a [u8], NameFault>
    ensures cipher { seen (λ cipher. cipher.now) result ≡ cipher_in_octets ours.now octets.now }
    ensures whole { IfOk result (λ cipher. length cipher.now % 16 ≡ 0) }
{
    cipher_of(body_of(octets)?, ours)
}

fn body_of(octets: &[u8]) -> Result<&[u8], NameFault>
    ensures body { seen (λ body. body.now) result ≡ body_in octets.now }
    ensures whole { IfOk result (λ body. HasBlocks body.now) }
{
    match octets {
        [] => Err(NameFault::Size),
        [tag, rest @ ..] => {
            if *tag == TAG70 {
                body_behind_length(rest)
            } else {
                Err(NameFault::Tag(*tag))
            }
        }
    }
}

fn body_behind_length(octets: &[u8]) -> Result<&[u8], NameFault>
    ensures body { seen (λ body. body.now) result ≡ body_behind octets.now (length_at octets.now) }
    ensures whole { IfOk result (λ body. HasBlocks body.now) }
{
    match read_length(octets) {
        Err(_) => Err(NameFault::Size),
        Ok((length, used)) => {
            if is_sized(octets, used, length) {
                let behind = &octets[used..];
                Ok(&behind[..length])
            } else {
                Err(NameFault::Size)
            }
        }
    }
}

fn is_sized(octets: &[u8], used: usize, length: usize) -> bool
    requires used { used ≤ 2 }
    requires length { length ≤ MAX_LENGTH }
    ensures value { result ≡ sized_test octets.now used length }
    ensures fits { IsTrue result → (41 ≤ length) × ((length - 9) % 16 ≡ 0) × (used + length ≤ len octets.now) }
{
    is_body_length(length)
        && used + length <= octets.len()
        && are_zero_bits(&octets[used + length..])
}

fn is_body_length(length: usize) -> bool
    ensures value { result ≡ length_test length }
    ensures fits { IsTrue result → (41 ≤ length) × ((length - 9) % 16 ≡ 0) }
{
    9 + 16 * 2 <= length && (length - 9) % 16 == 0
}

fn are_zero_bits(octets: &[u8]) -> bool
    ensures { result ≡ zeros_test octets.now }
{
    octets.len() < 3 && octets.iter().all(|octet| *octet == 0)
}

fn cipher_of<'a>(body: &'a [u8], ours: &[u8; 8]) -> Result<&'a [u8], NameFault>
    requires { HasBlocks body.now }
    ensures cipher { seen (λ cipher. cipher.now) result ≡ cipher_in ours.now body.now }
    ensures whole { IfOk result (λ cipher. length cipher.now % 16 ≡ 0) }
{
    let mut found = [0; 8];
    found.copy_from_slice(&body[..8]);
    if found != *ours {
        return Err(NameFault::WrongKey(found));
    }
    if body[8] != AES_128 {
        return Err(NameFault::Cipher(body[8]));
    }
    Ok(&body[9..])
}
