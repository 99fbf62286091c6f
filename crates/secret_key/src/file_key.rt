ghost use Rattle.std.specs.Prelude.{◌≡◌, ℕ, List, length, Some, codes};

use crate::secret::Secret;
use std::fmt::{self, Debug, Formatter, Write};
use std::marker::Model;

/// A file encryption key: the AES-128 key of one file's data. It has to be spent. Contracts see its
/// octets.
pub struct Fek {
    secret: Secret<16>,
}

impl Model for Fek {
    ghost Value = { List ℕ };

    ghost view = { λ k. k.secret };
}

impl Fek {
    /// The key with these octets.
    pub fn new(octets: [u8; 16]) -> Fek
        ensures { result ≡ octets }
    {
        Fek {
            secret: Secret::new(octets),
        }
    }

    /// The key's octets.
    pub fn octets(&self) -> &[u8; 16]
        ensures value { result.now ≡ self.now }
        ensures length { length result.now ≡ 16 }
    {
        self.secret.octets()
    }

    /// A copy of the key for work that goes on without it.
    pub fn loan(&self) -> FekLoan
        ensures { result ≡ self.now }
    {
        FekLoan {
            secret: Secret::new(*self.octets()),
        }
    }

    /// Ends the key, with zeros over its octets.
    pub fn spend(self) {
        let Fek { mut secret } = self;
        secret.wipe();
    }
}

// The name alone.
impl Debug for Fek {
    ghost debug_output = { λ _. Some (codes "Fek") };

    fn fmt<W: Write>(&self, f: &mut Formatter<W>) -> fmt::Result {
        f.write_str("Fek")
    }
}

/// A lent file key, made by [`Fek::loan`]. It has to be spent too. Contracts see its octets.
pub struct FekLoan {
    secret: Secret<16>,
}

impl Model for FekLoan {
    ghost Value = { List ℕ };

    ghost view = { λ k. k.secret };
}

impl FekLoan {
    /// The octets of the key that was lent.
    pub fn octets(&self) -> &[u8; 16]
        ensures value { result.now ≡ self.now }
        ensures length { length result.now ≡ 16 }
    {
        self.secret.octets()
    }

    /// Ends the loan, with zeros over its octets.
    pub fn spend(self) {
        let FekLoan { mut secret } = self;
        secret.wipe();
    }
}

// The name alone.
impl Debug for FekLoan {
    ghost debug_output = { λ _. Some (codes "FekLoan") };

    fn fmt<W: Write>(&self, f: &mut Formatter<W>) -> fmt::Result {
        f.write_str("FekLoan")
    }
}
