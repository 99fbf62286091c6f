// What the letters of a packet hold.
ghost use Rattle.std.specs.Prelude.{◌≡◌, ◌%◌, ⊤, length, IfOk};
ghost use Rattle.answer_model.specs.Answer.{GivesAs};
ghost use Rattle.coding_model.specs.NameCoding.{decoded as decoded_letters};
ghost use Rattle.coding_model.specs.CodedName.{ecb_decrypted, octets_coded};
ghost use Rattle.name_tag70.specs.Reading.{fault_of, octets_in_letters};

use crate::octets::are_octets;
use crate::packet::cipher_in_packet;
use crate::plain_text::behind_lead;
use aes_block::RoundKeys;
use cbc_mode::ecb_decrypt;
use lower_model::Items;
use name_coding::{CodingError, decode};
use name_form::{NameError, NameFault};
use std::alloc::{AllocError, Global};

/// The octets that the letters of a packet hold, under these round keys and this signature.
pub fn read_letters(
    alloc: Global,
    keys: &RoundKeys,
    ours: &[u8; 8],
    letters: &[u8],
) -> Result<Items<u8>, NameError>
    ensures { GivesAs (λ octets. octets) fault_of ⊤ result (octets_in_letters keys.now ours.now letters.now) }
{
    let packet = decoded(alloc, letters)?;
    let cipher = cipher_in_packet(&packet, ours)?;
    let plain = decrypted(alloc, keys, cipher)?;
    let octets = behind_lead(&plain)?;
    Ok(Items::from_slice(alloc, octets)?)
}

fn decoded(alloc: Global, letters: &[u8]) -> Result<Vec<u8>, NameError>
    ensures { GivesAs (λ octets. octets.items) fault_of ⊤ result (octets_coded (decoded_letters letters.now)) }
{
    match decode(alloc, letters) {
        Ok(octets) => Ok(octets),
        Err(CodingError::Fault(fault)) => Err(NameError::Fault(NameFault::Coding(fault))),
        Err(CodingError::Memory) => Err(NameError::Memory),
    }
}

fn decrypted(alloc: Global, keys: &RoundKeys, cipher: &[u8]) -> Result<Vec<u8>, AllocError>
    requires { length cipher.now % 16 ≡ 0 }
    ensures { IfOk result (λ plain. plain.items ≡ ecb_decrypted keys.now cipher.now) }
{
    let mut text = Vec::from_slice(alloc, cipher)?;
    ecb_decrypt(keys, &mut text);
    are_octets(&text);
    Ok(text)
}
