// A file key is one block of AES (FIPS 197) under ECB (SP 800-38A, 6.1), by the first octets of the key-encryption key.
ghost use Rattle.std.specs.Prelude.{◌≡◌, ℕ, List, take};
ghost use Rattle.octet_model.specs.Octets.{AreOctets};
ghost use Rattle.packet_model.specs.FileKey.{IsFileKey};

use aes_block::RoundKeys;
use cbc_mode::{ecb_decrypt, ecb_encrypt};
use secret_key::{Fek, Kek};

/// The file key that this key-encryption key wraps so. It has to be spent.
pub fn unwrap(kek: &Kek, wrapped: &[u8; 16]) -> Fek
    ensures { IsFileKey kek.now wrapped.now result }
{
    let mut octets = *wrapped;
    ecb_decrypt(&wrapping_keys(kek), &mut octets);
    Fek::new(octets)
}

/// The file key as this key-encryption key wraps it.
pub fn wrap(kek: &Kek, fek: &Fek) -> [u8; 16]
    ensures { IsFileKey kek.now result fek.now }
{
    let mut octets = [0; 16];
    octets.copy_from_slice(fek.octets());
    ecb_encrypt(&wrapping_keys(kek), &mut octets);
    octets
}

/// A wrapped key is that of one file key, and a file key is wrapped in one way: so [`wrap`] and [`unwrap`] undo each other.
pub fn wrapping_is_one_to_one()
    ensures one_key { (kek wrapped key other : List ℕ) → AreOctets key → AreOctets other
        → IsFileKey kek wrapped key → IsFileKey kek wrapped other → key ≡ other }
    ensures one_wrapping { (kek wrapped other key : List ℕ) → IsFileKey kek wrapped key → IsFileKey kek other key → wrapped ≡ other }
{}

fn wrapping_keys(kek: &Kek) -> RoundKeys
    ensures { result ≡ take 16 kek.now }
{
    let mut key = [0; 16];
    key.copy_from_slice(&kek.octets()[..16]);
    RoundKeys::new(&key)
}
