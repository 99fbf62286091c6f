//! The key-encryption key of a passphrase, as ecryptfs-utils makes it by iterated SHA-512 (FIPS 180-4, 6.4).
#![tactic(auto)]

ghost use Rattle.std.specs.Prelude.{◌≡◌, ◌<◌, ◌≤◌, ◌↔◌, ℕ, length, IsErrOf};
ghost use Rattle.key_model.specs.PassphraseKey.{key_signature, passphrase_key};

use secret_key::Kek;
use sha2::{Digest, Sha512};
use thiserror::Error;

#[cfg(test)]
mod tests;

/// The most octets of a passphrase.
pub const MAX_LENGTH: usize = 64;

const ITERATIONS: u32 = 65_536;

/// Why a passphrase gives no key.
#[derive(Clone, Copy, Debug, PartialEq, Eq, Error)]
pub enum PassFault {
    /// The passphrase has no octets.
    #[error("the passphrase is empty")]
    Empty,
    /// The passphrase has this many octets, and more than [`MAX_LENGTH`].
    #[error("the passphrase has {0} octets, and at most 64 are allowed")]
    Long(usize),
    /// Memory was refused. [`derive`] takes none, so it does not answer this.
    #[error("out of memory")]
    Memory,
}

/// The key-encryption key of a passphrase of 1 to [`MAX_LENGTH`] octets, and the key's signature.
pub fn derive(salt: &[u8; 8], passphrase: &[u8]) -> Result<(Kek, [u8; 8]), PassFault>
    ensures empty { IsErrOf result PassFault.Empty ↔ (length passphrase.now ≡ 0) }
    ensures long { (n : ℕ) → IsErrOf result (PassFault.Long n)
        ↔ ((MAX_LENGTH < length passphrase.now) × (n ≡ length passphrase.now)) }
    ensures derived { 0 < length passphrase.now → length passphrase.now ≤ MAX_LENGTH
        → let key = passphrase_key salt.now passphrase.now in result ≡ Ok (key, key_signature key) }
{
    match passphrase.len() {
        0 => Err(PassFault::Empty),
        1..=MAX_LENGTH => {
            let key = key_octets(salt, passphrase);
            let signature = signature(&key);
            Ok((Kek::new(key), signature))
        }
        length => Err(PassFault::Long(length)),
    }
}

#[tactic(auto, unfolding(key_model::specs::PassphraseKey::iterated_sha512))]
fn key_octets(salt: &[u8; 8], passphrase: &[u8]) -> [u8; 64]
    ensures { result ≡ passphrase_key salt.now passphrase.now }
{
    let mut hasher = Sha512::new();
    hasher.update(salt);
    hasher.update(passphrase);
    let mut digest = hasher.finalize();
    for _done in 1..ITERATIONS {
        digest = Sha512::digest(&digest);
    }
    digest
}

fn signature(key: &[u8; 64]) -> [u8; 8]
    ensures { result ≡ key_signature key.now }
{
    let digest = Sha512::digest(key);
    let mut signature = [0; 8];
    signature.copy_from_slice(&digest[..8]);
    signature
}
