// The pair of a set that has a signature of ours.
ghost use Rattle.std.specs.Prelude.{◌≡◌, ◌<◌, ◌+◌, ◌^◌, ◌∷◌, [], ⊤, length};
ghost use Rattle.answer_model.specs.Answer.{GivesAs};
ghost use Rattle.packet_model.specs.MetadataError.{cause_of};
ghost use Rattle.packet_model.specs.PacketSet.{pairs_from};
ghost use Rattle.packet_set.specs.OwnPair.{own_pair_with as first_own_pair, own_pair_behind as first_own_pair_behind};

use crate::pair::{begins_pair, pair_of};
use packet_model::{MetadataError, Pair};
use std::alloc::Global;

/// The first pair with this signature, behind one more pair.
pub fn own_pair_with(own: Option<Pair>, pair: Pair, ours: &[u8; 8]) -> Option<Pair>
    ensures { result ≡ first_own_pair (ours.now ∷ []) own pair }
{
    match own {
        Some(first) => Some(first),
        None => {
            if *ours == pair.tag11.signature {
                Some(pair)
            } else {
                None
            }
        }
    }
}

/// The first pair with this signature, behind all pairs from this offset on. The whole set is read.
pub fn own_pair_behind(
    alloc: Global,
    offset: usize,
    octets: &[u8],
    first: Option<Pair>,
    ours: &[u8; 8],
) -> Result<Option<Pair>, MetadataError>
    requires { offset + length octets.now < 2 ^ 64 }
    ensures { GivesAs (λ own. own) cause_of ⊤ result (first_own_pair_behind (ours.now ∷ []) first (pairs_from offset octets.now)) }
{
    let mut own = first;
    let mut offset = offset;
    let mut rest = octets;
    'pairs: while begins_pair(rest) {
        let (pair, used) = pair_of(alloc, offset, rest)?;
        own = own_pair_with(own, pair, ours);
        offset += used;
        rest = &rest[used..];
    }
    Ok(own)
}
