// One pair of packets.
ghost use Rattle.std.specs.Prelude.{◌≡◌, ◌<◌, ◌≤◌, ◌+◌, ◌^◌, length, IfOk};
ghost use Rattle.answer_model.specs.Answer.{GivesAs};
ghost use Rattle.packet_model.specs.MetadataError.{cause_of};
ghost use Rattle.packet_model.specs.PacketSet.{pair_at, at_offset, begins_pair as pair_test, begins_tag1 as tag1_test, SetTakesMemory};
ghost use Rattle.packet_model.specs.FrontPacket.{tag3_at, tag11_at};

use packet_model::{BadCause, MetadataError, PacketError, Pair, TAG1, TAG3, TAG11};
use std::alloc::Global;
use tag3_packet::{Tag3, read_tag3};
use tag11_packet::{Tag11, read_tag11};

/// Whether a pair, or a packet in its place, begins here.
pub fn begins_pair(octets: &[u8]) -> bool
    ensures { result ≡ pair_test octets.now }
{
    match octets {
        [] => false,
        [first, ..] => *first == TAG3 || *first == TAG11 || *first == TAG1,
    }
}

fn begins_tag1(octets: &[u8]) -> bool
    ensures { result ≡ tag1_test octets.now }
{
    match octets {
        [] => false,
        [first, ..] => *first == TAG1,
    }
}

fn key_packet(alloc: Global, offset: usize, octets: &[u8]) -> Result<(Tag3, usize), MetadataError>
    ensures packet { GivesAs (λ x. x) cause_of (SetTakesMemory octets.now) result (at_offset offset (tag3_at octets.now)) }
    ensures within { IfOk result (λ x. (0 < x.1) × (x.1 ≤ length octets.now)) }
{
    match read_tag3(alloc, octets) {
        Ok(found) => Ok(found),
        Err(PacketError::Bad) => Err(MetadataError::Bad(BadCause::Packet(offset))),
        Err(PacketError::Memory) => Err(MetadataError::Memory),
    }
}

fn signature_packet(offset: usize, octets: &[u8]) -> Result<(Tag11, usize), MetadataError>
    ensures packet { GivesAs (λ x. x) cause_of ⊥ result (at_offset offset (tag11_at octets.now)) }
    ensures within { IfOk result (λ x. x.1 ≤ length octets.now) }
{
    match read_tag11(octets) {
        Ok(found) => Ok(found),
        Err(_) => Err(MetadataError::Bad(BadCause::Packet(offset))),
    }
}

/// The pair at this offset, and how many octets it has.
#[tactic(auto, unfolding(packet_model::specs::PacketSet::pair_at))]
pub fn pair_of(alloc: Global, offset: usize, octets: &[u8]) -> Result<(Pair, usize), MetadataError>
    requires { offset + length octets.now < 2 ^ 64 }
    ensures pair { GivesAs (λ x. x) cause_of (SetTakesMemory octets.now) result (pair_at offset octets.now) }
    ensures within { IfOk result (λ x. (0 < x.1) × (x.1 ≤ length octets.now)) }
{
    if begins_tag1(octets) {
        return Err(MetadataError::Bad(BadCause::Tag1(offset)));
    }
    let (tag3, key) = key_packet(alloc, offset, octets)?;
    let (tag11, signature) = signature_packet(offset + key, &octets[key..])?;
    Ok((Pair { tag3, tag11 }, key + signature))
}
