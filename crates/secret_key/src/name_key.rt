ghost use Rattle.std.specs.Prelude.{◌≡◌, length, Some, codes};

use crate::secret::Secret;
use crate::wrapping_key::Kek;
use std::fmt::{self, Debug, Formatter, Write};
use std::marker::Model;

/// A file name encryption key: the key of a mount's names, with its signature. It has to be spent.
/// Contracts see its octets and its signature.
pub struct Fnek {
    key: Kek,
    signature: Secret<8>,
}

impl Model for Fnek {
    ghost use Rattle.key_model.specs.SignedKey.{SignedKey};

    ghost Value = { SignedKey };

    ghost view = { λ k. record { signature = k.signature; key = k.key } };
}

impl Fnek {
    /// The name key with this key's octets and this signature.
    pub fn new(key: Kek, signature: [u8; 8]) -> Fnek
        ensures { result ≡ record { signature = signature; key = key } }
    {
        Fnek {
            key,
            signature: Secret::new(signature),
        }
    }

    /// The key's octets.
    pub fn octets(&self) -> &[u8; 64]
        ensures value { result.now ≡ self.now.key }
        ensures length { length result.now ≡ 64 }
    {
        self.key.octets()
    }

    /// The key's signature.
    pub fn signature(&self) -> [u8; 8]
        ensures value { result ≡ self.now.signature }
        ensures length { length result ≡ 8 }
    {
        *self.signature.octets()
    }

    /// Ends the key, with zeros over its octets and its signature.
    pub fn spend(self) {
        let Fnek { key, mut signature } = self;
        key.spend();
        signature.wipe();
    }
}

// The name alone.
impl Debug for Fnek {
    ghost debug_output = { λ _. Some (codes "Fnek") };

    fn fmt<W: Write>(&self, f: &mut Formatter<W>) -> fmt::Result {
        f.write_str("Fnek")
    }
}
