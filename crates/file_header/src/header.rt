// The metadata that an attribute is, or that stands at the head of a body.
ghost use Rattle.std.specs.Prelude.{◌≤◌, List, length};
ghost use Rattle.answer_model.specs.Answer.{GivesBy};
ghost use Rattle.key_model.specs.SignedKey.{SignedKey, signatures};
ghost use Rattle.packet_model.specs.MetadataError.{cause_of};
ghost use Rattle.packet_model.specs.PacketSet.{WrappedKey};
ghost use Rattle.packet_model.specs.Metadata.{HeaderTakesMemory, header_at, header_with};
ghost use Rattle.packet_set.specs.Found.{IsFound};
ghost use Rattle.file_header.specs.Meta.{IsMeta};

use crate::fields::{fields_fault, flags_of, meta_size_of, packets_of, size_of};
use crate::meta::Meta;
use packet_model::{BadCause, MAX_SIZE, MetaPlace, MetadataError, SET_OFFSET};
use packet_set::{Found, Ring, find_key};
use std::alloc::Global;

/// The metadata that these octets are: an attribute, or the head of a body, of which no octet from [`packet_model::SET_END`] on is
/// looked at. The causes `Short` to `TooLarge` come in their order. Memory runs out only where the fields before the packets have no
/// fault and a tag 3 packet stands behind them.
pub fn read_header<R: Ring>(
    alloc: Global,
    octets: &[u8],
    meta_place: MetaPlace,
    ring: &R,
) -> Result<Meta, MetadataError>
    ensures { GivesBy (IsMeta (R.ring ring.now)) cause_of (HeaderTakesMemory meta_place octets.now) result
        (header_at meta_place (signatures (R.ring ring.now)) octets.now) }
{
    if let Some(cause) = fields_fault(meta_place, octets) {
        return Err(MetadataError::Bad(cause));
    }
    let found = find_key(alloc, packets_of(octets), ring)?;
    meta_of(octets, found)
}

// The size is looked at last.
fn meta_of(octets: &[u8], found: Found) -> Result<Meta, MetadataError>
    requires { SET_OFFSET ≤ length octets.now }
    ensures { (ring : List SignedKey) (key : WrappedKey) → IsFound ring found key
        → GivesBy (IsMeta ring) cause_of ⊥ result (header_with octets.now key) }
{
    let Found { fek, signature: _ } = found;
    let size = size_of(octets);
    if size > MAX_SIZE {
        fek.spend();
        return Err(MetadataError::Bad(BadCause::TooLarge(size)));
    }
    Ok(Meta {
        size,
        flags: flags_of(octets),
        meta_size: meta_size_of(octets),
        fek,
    })
}
