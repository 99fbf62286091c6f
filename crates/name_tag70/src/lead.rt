ghost use Rattle.std.specs.Prelude.{◌≡◌, ◌++◌, length, map, replicate};
ghost use Rattle.md5.specs.Md5.{md5};
ghost use Rattle.coding_model.specs.CodedName.{lead_octet, lead_octets};

use coding_model::ZERO_BECOMES;
use md5::{Digest, Md5};
use std::marker::Model;

// The octets with which the leads of a mount begin. They may be let go only once they are zeros.
pub struct LeadOctets {
    octets: [u8; 32],
}

impl Model for LeadOctets {
    ghost use Rattle.std.specs.Prelude.{List, ℕ};

    ghost Value = { List ℕ };

    ghost view = { λ l. l.octets };
}

impl Drop for LeadOctets {
    fn drop(self)
        requires { self ≡ replicate 32 0 }
    {
        let LeadOctets { octets: _ } = self;
    }
}

impl LeadOctets {
    // Those of a name key.
    pub fn new(key: &[u8; 64]) -> LeadOctets
        ensures { result ≡ lead_octets key.now }
    {
        LeadOctets {
            octets: without_zeros(&digests(key)),
        }
    }

    pub fn octets(&self) -> &[u8; 32]
        ensures value { result.now ≡ self.now }
        ensures length { length result.now ≡ 32 }
    {
        &self.octets
    }

    // Zeros over the octets.
    pub fn wipe(&mut self)
        ensures { self.new ≡ replicate 32 0 }
    {
        self.octets.fill(0);
    }
}

// The digest of a name key, and that of this digest.
fn digests(key: &[u8; 64]) -> [u8; 32]
    ensures { result ≡ md5 key.now ++ md5 (md5 key.now) }
{
    let first = Md5::digest(key);
    let second = Md5::digest(&first);
    let mut both = [0; 32];
    both[..16].copy_from_slice(&first);
    both[16..].copy_from_slice(&second);
    both
}

fn without_zeros(digests: &[u8; 32]) -> [u8; 32]
    ensures { result ≡ map lead_octet digests.now }
{
    let mut octets = [0; 32];
    for i in 0..32 {
        octets[i] = without_zero(digests[i]);
    }
    octets
}

fn without_zero(octet: u8) -> u8
    ensures { result ≡ lead_octet octet }
{
    if octet == 0 { ZERO_BECOMES } else { octet }
}
