ghost use Rattle.std.specs.Prelude.{◌∷◌, []};
ghost use Rattle.answer_model.specs.Answer.{GivesAs, GivesBy};
ghost use Rattle.key_model.specs.SignedKey.{signatures};
ghost use Rattle.packet_model.specs.MetadataError.{cause_of};
ghost use Rattle.packet_model.specs.PacketSet.{SetTakesMemory, key_at, usable_key};
ghost use Rattle.packet_set.specs.Found.{IsFound, aes_128_key};

use crate::own_pair::{own_pair_behind, own_pair_with};
use crate::pair::{begins_pair, pair_of};
use crate::ring::Ring;
use crate::wrapping::unwrap;
use packet_model::{AES_128, BadCause, MetadataError, Pair, SET_OFFSET};
use secret_key::Fek;
use std::alloc::Global;

/// A file key, and the signature of the key that wraps it. The file key has to be spent.
#[derive(Debug)]
pub struct Found {
    /// The file key.
    pub fek: Fek,
    /// The signature of the pair from which it comes.
    pub signature: [u8; 8],
}

/// The file key of a set of packets, the octets of a file's metadata from [`SET_OFFSET`] on: that of the first pair with a signature
/// of the ring. `NoPacket`, `Tag1`, `Packet`, `WrongKey` and `Cipher` come in this order; the whole set is read before a key is
/// looked for. Memory runs out only where the set begins with a tag 3 packet.
pub fn find_key<R: Ring>(alloc: Global, octets: &[u8], ring: &R) -> Result<Found, MetadataError>
    ensures { GivesBy (IsFound (R.ring ring.now)) cause_of (SetTakesMemory octets.now) result (key_at (signatures (R.ring ring.now)) octets.now) }
{
    let wrapped = wrapped_key_of(alloc, octets, &ring.signature())?;
    Ok(Found {
        fek: unwrap(ring.kek(), &wrapped.octets),
        signature: wrapped.signature,
    })
}

// A file key under AES-128, wrapped, and the signature of the key that wraps it.
#[derive(Drop)]
struct Wrapped {
    signature: [u8; 8],
    octets: [u8; 16],
}

#[tactic(auto, unfolding(packet_model::specs::PacketSet::key_at))]
fn wrapped_key_of(alloc: Global, octets: &[u8], ours: &[u8; 8]) -> Result<Wrapped, MetadataError>
    ensures { GivesAs (λ w. aes_128_key w.signature w.octets) cause_of (SetTakesMemory octets.now) result (key_at (ours.now ∷ []) octets.now) }
{
    if !begins_pair(octets) {
        return Err(MetadataError::Bad(BadCause::NoPacket));
    }
    let (first, used) = pair_of(alloc, SET_OFFSET, octets)?;
    let theirs = first.tag11.signature;
    let own = own_pair_with(None, first, ours);
    match own_pair_behind(alloc, SET_OFFSET + used, &octets[used..], own, ours)? {
        None => Err(MetadataError::Bad(BadCause::WrongKey(theirs, *ours))),
        Some(pair) => usable_wrapped_key(&pair),
    }
}

fn usable_wrapped_key(pair: &Pair) -> Result<Wrapped, MetadataError>
    // It takes no memory.
    ensures { GivesAs (λ w. aes_128_key w.signature w.octets) cause_of ⊥ result (usable_key pair.now) }
{
    let wrapped = pair.tag3.wrapped.as_slice();
    if pair.tag3.cipher != AES_128 || wrapped.len() != 16 {
        return Err(MetadataError::Bad(BadCause::Cipher(pair.tag3.cipher)));
    }
    let mut octets = [0; 16];
    octets.copy_from_slice(wrapped);
    Ok(Wrapped {
        signature: pair.tag11.signature,
        octets,
    })
}
