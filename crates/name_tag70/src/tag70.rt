ghost use Rattle.std.specs.Prelude.{◌≡◌, ◌<◌, ◌≤◌, ⊤, length, IfOk};
ghost use Rattle.answer_model.specs.Answer.{GivesAs};
ghost use Rattle.coding_model.specs.declared.constants.TheConstants.{LONGEST_CODED_NAME, LONGEST_CODED_OCTETS};
ghost use Rattle.coding_model.specs.CodedName.{name_cipher_key, packet_octets, lower_octets, upper_name, written_name};
ghost use Rattle.name_tag70.specs.Reading.{fault_of};

use crate::lead::LeadOctets;
use crate::own_key::OwnKey;
use crate::reader::read_letters;
use crate::writer::{lower_name, write_packet};
use aes_block::RoundKeys;
use coding_model::{LONGEST_CODED_NAME, PREFIX};
use lower_model::{Items, is_name};
use name_form::{NameError, NameFault, NameForm};
use secret_key::Fnek;
use std::alloc::{AllocError, Global};
use std::marker::Model;

/// The form in which names are coded: a lower name is a prefix and the letters of a tag 70 packet, which holds the name under a name
/// key. It has to be ended. Contracts see its name key.
pub struct Tag70 {
    own: OwnKey,
    round_keys: RoundKeys,
    lead: LeadOctets,
}

impl Model for Tag70 {
    ghost use Rattle.std.specs.Prelude.{◌≡◌};
    ghost use Rattle.coding_model.specs.CodedName.{name_cipher_key, lead_octets};
    ghost use Rattle.name_tag70.specs.NameKey.{NameKey};

    ghost Value = { NameKey };

    ghost view = { λ t. record { key = t.own.key; long = t.own.long; octets = t.own.octets } };

    ghost invariant = { λ t. record { round_keys : t.round_keys ≡ name_cipher_key t.own.key; lead : t.lead ≡ lead_octets t.own.key.key } };
}

impl Tag70 {
    /// The form with this name key. The key's round keys and the octets of leads are made here, once for all names.
    pub fn new(key: Fnek) -> Tag70
        ensures { result.key ≡ key }
    {
        let round_keys = round_keys_of(&key);
        let lead = LeadOctets::new(key.octets());
        Tag70 {
            own: OwnKey::new(key),
            round_keys,
            lead,
        }
    }

    /// Ends the form: the key is spent, and zeros are written over the octets of leads. Round keys are not wiped.
    pub fn end(self) {
        let Tag70 {
            own: OwnKey { key },
            round_keys: _,
            mut lead,
        } = self;
        key.spend();
        lead.wipe();
    }

    /// The octets that a lower name holds: behind the prefix those of its packet, whether or not they are a name, else its own. A fault
    /// comes exactly where it holds none, and is never `BadName`.
    pub fn read_coded(&self, alloc: Global, lower: &[u8]) -> Result<Items<u8>, NameError>
        ensures { GivesAs (λ octets. octets) fault_of ⊤ result (lower_octets self.now.key lower.now) }
    {
        if lower.starts_with(&PREFIX) {
            self.read_packet(alloc, &lower[PREFIX.len()..])
        } else {
            Ok(Items::from_slice(alloc, lower)?)
        }
    }

    /// The lower name that holds 1 to [`crate::LONGEST_CODED_OCTETS`] octets.
    pub fn write_coded(&self, alloc: Global, octets: &[u8]) -> Result<Items<u8>, AllocError>
        requires some { 0 < length octets.now }
        requires few { length octets.now ≤ LONGEST_CODED_OCTETS }
        ensures { IfOk result (λ lower. lower ≡ written_name self.now.key octets.now) }
    {
        let packet = write_packet(
            alloc,
            &self.round_keys,
            self.lead.octets(),
            &self.own.key.signature(),
            octets,
        )?;
        Ok(lower_name(alloc, &packet)?)
    }

    // What the letters of a packet hold.
    fn read_packet(&self, alloc: Global, letters: &[u8]) -> Result<Items<u8>, NameError>
        ensures { GivesAs (λ octets. octets) fault_of ⊤ result (packet_octets self.now.key letters.now) }
    {
        read_letters(alloc, &self.round_keys, &self.own.key.signature(), letters)
    }
}

impl NameForm for Tag70 {
    ghost use Rattle.coding_model.proofs.CodedNames.{reads_written as written_is_read, reads_names as read_is_name, writes_names as written_is_name};
    ghost use Rattle.coding_model.proofs.Signatures.{eight_octets};

    ghost upper = { λ form lower. upper_name form.key lower };

    ghost written = { λ form name. written_name form.key name };

    ghost longest = { λ form. LONGEST_CODED_NAME };

    ghost reads_written = { λ form name is fits. written_is_read form.key name (eight_octets form.key.signature form.long form.octets) is fits };

    ghost reads_names = { λ form lower name is reads. read_is_name form.key lower name reads };

    ghost writes_names = { λ form name is fits. written_is_name form.key name (eight_octets form.key.signature form.long form.octets) is fits };

    /// As [`Tag70::read_coded`], and `BadName` exactly where the octets are no name.
    fn read(&self, alloc: Global, lower: &[u8]) -> Result<Items<u8>, NameError> {
        let octets = self.read_coded(alloc, lower)?;
        if is_name(octets.as_slice()) {
            Ok(octets)
        } else {
            Err(NameError::Fault(NameFault::BadName))
        }
    }

    fn write(&self, alloc: Global, name: &[u8]) -> Result<Items<u8>, AllocError> {
        self.write_coded(alloc, name)
    }

    fn limit(&self) -> usize {
        LONGEST_CODED_NAME
    }
}

fn round_keys_of(key: &Fnek) -> RoundKeys
    ensures { result ≡ name_cipher_key key.now }
{
    let mut first = [0; 16];
    first.copy_from_slice(&key.octets()[..16]);
    RoundKeys::new(&first)
}
