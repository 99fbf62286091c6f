// The lower name that holds some octets.
ghost use Rattle.std.specs.Prelude.{◌≡◌, ◌≤◌, ◌%◌, ◌++◌, ◌∷◌, length, take, IfOk};
ghost use Rattle.packet_model.specs.Packet.{packet};
ghost use Rattle.packet_model.specs.declared.layout.TheConstants.{AES_128};
ghost use Rattle.coding_model.specs.declared.constants.TheConstants.{PREFIX, TAG70, LONGEST_CODED_OCTETS};
ghost use Rattle.coding_model.specs.NameCoding.{coded};
ghost use Rattle.coding_model.specs.CodedName.{ecb_encrypted, lead_length as length_of_lead};

use crate::octets::are_octets;
use crate::plain_text::lead_length;
use aes_block::RoundKeys;
use cbc_mode::ecb_encrypt;
use coding_model::{PREFIX, TAG70};
use lower_model::Items;
use name_coding::encode;
use packet_length::write_length;
use packet_model::AES_128;
use std::alloc::{AllocError, Global};

/// The packet that holds these octets, under these round keys and this signature, behind as much of this lead as they need.
pub fn write_packet(
    alloc: Global,
    keys: &RoundKeys,
    lead: &[u8; 32],
    signature: &[u8; 8],
    octets: &[u8],
) -> Result<Vec<u8>, AllocError>
    requires { length octets.now ≤ LONGEST_CODED_OCTETS }
    ensures { IfOk result (λ p. p.items ≡ packet TAG70 (signature.now ++ AES_128 ∷ ecb_encrypted keys.now (take (length_of_lead octets.now) lead.now ++ 0 ∷ octets.now))) }
{
    let cipher = encrypted(alloc, keys, lead, octets)?;
    let (length, used) = write_length((9 + cipher.len()) as u16);
    let mut packet = Vec::with_capacity(alloc, 12 + cipher.len())?;
    packet.push(TAG70)?;
    packet.extend_from_slice(&length[..used])?;
    packet.extend_from_slice(signature)?;
    packet.push(AES_128)?;
    packet.extend_from_slice(&cipher)?;
    Ok(packet)
}

/// The lower name of a packet.
pub fn lower_name(alloc: Global, packet: &[u8]) -> Result<Items<u8>, AllocError>
    ensures { IfOk result (λ lower. lower ≡ PREFIX ++ coded packet.now) }
{
    let letters = encode(alloc, packet)?;
    let mut lower = Vec::with_capacity(alloc, PREFIX.len() + letters.len())?;
    lower.extend_from_slice(&PREFIX)?;
    lower.extend_from_slice(&letters)?;
    Ok(Items::from_vec(lower))
}

fn encrypted(
    alloc: Global,
    keys: &RoundKeys,
    lead: &[u8; 32],
    octets: &[u8],
) -> Result<Vec<u8>, AllocError>
    requires { length octets.now ≤ LONGEST_CODED_OCTETS }
    ensures cipher { IfOk result (λ cipher. cipher.items ≡ ecb_encrypted keys.now (take (length_of_lead octets.now) lead.now ++ 0 ∷ octets.now)) }
    ensures short { IfOk result (λ cipher. length cipher.items ≤ 1055) }
{
    let mut text = plain_text(alloc, lead, octets)?;
    are_octets(&text);
    ecb_encrypt(keys, &mut text);
    Ok(text)
}

// A lead of as many octets as these octets need, a zero, and the octets.
fn plain_text(alloc: Global, lead: &[u8; 32], octets: &[u8]) -> Result<Vec<u8>, AllocError>
    requires { length octets.now ≤ LONGEST_CODED_OCTETS }
    ensures text { IfOk result (λ text. text.items ≡ take (length_of_lead octets.now) lead.now ++ 0 ∷ octets.now) }
    ensures whole { IfOk result (λ text. (length text.items % 16 ≡ 0) × (length text.items ≤ 1055)) }
{
    let len = lead_length(octets);
    let mut text = Vec::with_capacity(alloc, len + 1 + octets.len())?;
    text.extend_from_slice(&lead[..len])?;
    text.push(0)?;
    text.extend_from_slice(octets)?;
    Ok(text)
}
