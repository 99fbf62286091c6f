ghost use Rattle.std.specs.Prelude.{◌≡◌, ℕ, List, length, Some, codes};

use crate::secret::Secret;
use std::fmt::{self, Debug, Formatter, Write};
use std::marker::Model;

/// A key-encryption key, as a passphrase gives it. It has to be spent. Contracts see its octets.
pub struct Kek {
    secret: Secret<64>,
}

impl Model for Kek {
    ghost Value = { List ℕ };

    ghost view = { λ k. k.secret };
}

impl Kek {
    /// The key with these octets.
    pub fn new(octets: [u8; 64]) -> Kek
        ensures { result ≡ octets }
    {
        Kek {
            secret: Secret::new(octets),
        }
    }

    /// The key's octets.
    pub fn octets(&self) -> &[u8; 64]
        ensures value { result.now ≡ self.now }
        ensures length { length result.now ≡ 64 }
    {
        self.secret.octets()
    }

    /// Ends the key, with zeros over its octets.
    pub fn spend(self) {
        let Kek { mut secret } = self;
        secret.wipe();
    }
}

// The name alone.
impl Debug for Kek {
    ghost debug_output = { λ _. Some (codes "Kek") };

    fn fmt<W: Write>(&self, f: &mut Formatter<W>) -> fmt::Result {
        f.write_str("Kek")
    }
}
