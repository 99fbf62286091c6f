// The extents of a body.
ghost use Rattle.std.specs.Prelude.{◌≡◌, ◌+◌, ◌*◌, ◌/◌, ◌%◌, ◌^◌, ◌<◌, ◌≤◌, List, ℕ, length, IfOk};
ghost use Rattle.packet_model.specs.Metadata.{extent_count};
ghost use Rattle.octet_model.specs.Octets.{AreOctets};
ghost use Rattle.content_model.specs.Content.{ArePlain};
ghost use Rattle.extent_file.specs.DecryptedExtents.{AreFirstOctets, IsDecryptedTo};

use aes_block::RoundKeys;
use cbc_mode::cbc_decrypt;
use extent_iv::{extent_iv, root_iv};
use packet_model::EXTENT_SIZE;
use std::alloc::{AllocError, Global};

/// How many octets an extent has.
pub const EXTENT: usize = EXTENT_SIZE as usize;

/// The first `size` octets of the plain text of these extents, under this file key.
pub fn plain_text(
    alloc: Global,
    key: &[u8; 16],
    extents: &[u8],
    size: usize,
) -> Result<Vec<u8>, AllocError>
    requires whole { length extents.now ≡ EXTENT_SIZE * extent_count size }
    requires short { length extents.now < 2 ^ 32 }
    ensures { IfOk result (λ octets. AreFirstOctets key.now extents.now size octets.items) }
{
    let mut plain = Vec::from_slice(alloc, extents)?;
    decrypt_extents(key, &mut plain);
    plain.truncate(size);
    Ok(plain)
}

// Decrypts the extents in place, each with the IV of its number.
fn decrypt_extents(key: &[u8; 16], octets: &mut [u8])
    requires whole { length octets.old % EXTENT_SIZE ≡ 0 }
    requires short { length octets.old < 2 ^ 32 }
    ensures { ArePlain key.now 0 (length octets.old / EXTENT_SIZE) octets.old octets.new }
{
    let keys = RoundKeys::new(key);
    let root = root_iv(key);
    'extents: for n in 0..octets.len() / EXTENT {
        decrypt_extent(&keys, &root, n, octets);
    }
    are_octets(octets);
}

/// For contracts: a list that a slice of octets stands for has no greater numbers.
pub fn are_octets(octets: &[u8])
    ensures { AreOctets octets.now }
{}

fn decrypt_extent(keys: &RoundKeys, root: &[u8; 16], n: usize, octets: &mut [u8])
    requires number { n < 10 ^ 15 }
    requires within { EXTENT_SIZE * n + EXTENT_SIZE ≤ length octets.old }
    ensures { (cipher : List ℕ) → IsDecryptedTo keys.now root.now cipher octets.old n
        → IsDecryptedTo keys.now root.now cipher octets.new (n + 1) }
{
    let iv = extent_iv(root, n as u64);
    cbc_decrypt(keys, &iv, &mut octets[EXTENT * n..EXTENT * n + EXTENT]);
}
