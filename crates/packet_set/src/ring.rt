ghost use Rattle.std.specs.Prelude.{◌≡◌, ◌∷◌, [], List, Some, codes};
ghost use Rattle.key_model.specs.SignedKey.{SignedKey, keys, signatures};

use secret_key::Kek;
use std::fmt::{self, Debug, Formatter, Write};
use std::marker::Model;

/// The keys under which a mount reads files, each with its signature. So far it is one key.
pub trait Ring {
    ghost ring: { Self → List SignedKey };

    /// The signature of the key.
    fn signature(&self) -> [u8; 8]
        ensures { signatures (ring self.now) ≡ result ∷ [] };

    /// The key-encryption key.
    fn kek(&self) -> &Kek
        ensures { keys (ring self.now) ≡ result.now ∷ [] };
}

/// A ring of one key. It has to be ended. Contracts see the key with its signature.
pub struct OneKeyRing {
    kek: Kek,
    signature: [u8; 8],
}

impl Model for OneKeyRing {
    ghost Value = { SignedKey };

    ghost view = { λ r. record { signature = r.signature; key = r.kek } };
}

impl OneKeyRing {
    /// The ring of this key-encryption key, which has this signature.
    pub fn new(kek: Kek, signature: [u8; 8]) -> OneKeyRing
        ensures { result ≡ record { signature = signature; key = kek } }
    {
        OneKeyRing { kek, signature }
    }

    /// Spends the key.
    pub fn end(self) {
        let OneKeyRing { kek, signature: _ } = self;
        kek.spend();
    }
}

impl Ring for OneKeyRing {
    ghost ring = { λ r. r ∷ [] };

    fn signature(&self) -> [u8; 8] {
        self.signature
    }

    fn kek(&self) -> &Kek {
        &self.kek
    }
}

// The name alone.
impl Debug for OneKeyRing {
    ghost debug_output = { λ _. Some (codes "OneKeyRing") };

    fn fmt<W: Write>(&self, f: &mut Formatter<W>) -> fmt::Result {
        f.write_str("OneKeyRing")
    }
}
