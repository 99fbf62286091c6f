//! The IVs of a file's data extents, as Linux's eCryptfs makes them by MD5 (RFC 1321). Nothing here takes
//! memory.
#![tactic(auto)]

ghost use Rattle.std.specs.Prelude.{◌≡◌, ◌^◌, ◌<◌, ◌≤◌, ◌++◌, length};
ghost use Rattle.key_model.specs.ExtentIv.{extent_iv, root_iv, zero_filled};
ghost use Rattle.md5.specs.Md5.{md5};

use itoa::Buffer;
use md5::{Digest, Md5};

#[cfg(test)]
mod tests;

const ZEROS: [u8; 16] = [0; 16];

/// A file's root IV: the MD5 of its file key.
pub fn root_iv(key: &[u8; 16]) -> [u8; 16]
    ensures { result ≡ root_iv key.now }
{
    Md5::digest(key)
}

/// The IV of the data extent with this number, counted from 0: the MD5 of the root IV, the number in
/// decimal ASCII, and zeros up to 32 octets.
#[tactic(auto, using(crate::proofs::Digits::length_decimal))]
pub fn extent_iv(root: &[u8; 16], extent: u64) -> [u8; 16]
    requires { extent < 10 ^ 15 }
    ensures { result ≡ extent_iv root.now extent }
{
    filled_digest(root, Buffer::new().format(extent).as_bytes())
}

fn filled_digest(root: &[u8; 16], digits: &[u8]) -> [u8; 16]
    requires { length digits.now ≤ 16 }
    ensures { result ≡ md5 (zero_filled 32 (root.now ++ digits.now)) }
{
    let mut hasher = Md5::new();
    hasher.update(root);
    hasher.update(digits);
    hasher.update(&ZEROS[digits.len()..]);
    hasher.finalize()
}
