ghost use Rattle.std.specs.Prelude.{◌≡◌, IsTrue, length};
ghost use Rattle.name_tag70.specs.NameKey.{are_octets as octets_test};

use crate::octets::are_octets;
use secret_key::Fnek;

// A name key whose signature is known to have 8 octets.
pub struct OwnKey {
    pub key: Fnek,
    ghost long: { length key.signature ≡ 8 },
    ghost octets: { IsTrue (octets_test key.signature) },
}

impl OwnKey {
    pub fn new(key: Fnek) -> OwnKey
        ensures { result.key ≡ key }
    {
        are_octets(&key.signature());
        OwnKey { key }
    }
}
