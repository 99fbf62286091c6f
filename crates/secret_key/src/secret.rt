ghost use Rattle.std.specs.Prelude.{◌≡◌, ℕ, List, length, replicate};

use std::marker::Model;

// Octets that may be let go only once they are zeros.
pub struct Secret<const N: usize> {
    octets: [u8; N],
}

impl<const N: usize> Model for Secret<N> {
    ghost Value = { List ℕ };

    ghost view = { λ s. s.octets };
}

impl<const N: usize> Drop for Secret<N> {
    fn drop(self)
        requires { self ≡ replicate N 0 }
    {
        let Secret { octets: _ } = self;
    }
}

impl<const N: usize> Secret<N> {
    pub fn new(octets: [u8; N]) -> Secret<N>
        ensures { result ≡ octets.entry }
    {
        Secret { octets }
    }

    pub fn octets(&self) -> &[u8; N]
        ensures value { result.now ≡ self.now }
        ensures length { length result.now ≡ N }
    {
        &self.octets
    }

    // Zeros over the octets.
    pub fn wipe(&mut self)
        ensures { self.new ≡ replicate N 0 }
    {
        self.octets.fill(0);
    }
}
