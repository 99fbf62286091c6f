// A key, ready for use.
ghost use Rattle.std.specs.Prelude.{◌≡◌, ◌≤◌, List, ℕ, Some, codes};
ghost use Rattle.cipher_model.specs.Aes.{IsBlock};

use crate::{cipher, inverse, keys, words};
use std::fmt::{self, Debug, Formatter, Write};
use std::marker::Model;

/// The round keys of a key of 16 octets (FIPS 197, 5.2). A clause sees them as the list of the key's octets.
#[derive(Drop)]
pub struct RoundKeys {
    words: [u32; 44],
    // The words under InvMixColumns.
    unmixed: [u32; 44],
}

impl Model for RoundKeys {
    ghost use Rattle.std.specs.Prelude.{List, ℕ};
    ghost use Rattle.cipher_model.specs.Aes.{bytes_at};
    ghost use Rattle.aes_block.specs.Words.{AreKeyWords};

    ghost Value = { List ℕ };

    // The first round key is the key.
    ghost view = { λ k. bytes_at k.words 0 };

    ghost invariant = { λ k. AreKeyWords (bytes_at k.words 0) k.words k.unmixed };
}

impl RoundKeys {
    ghost use Rattle.std.specs.Int.{to_le_bytes, w128};
    ghost use Rattle.cipher_model.specs.Aes.{decrypted, encrypted, round_key};

    /// The round keys of `key`.
    pub fn new(key: &[u8; 16]) -> RoundKeys
        ensures { result ≡ key.now }
    {
        let words = keys::key_schedule(key);
        let unmixed = inverse::unmixed_words(&words);
        RoundKeys { words, unmixed }
    }

    /// The round key that is added after round `r`, or before the first for 0, as 16 octets (FIPS 197, 5.1.4).
    pub fn round_key(&self, r: usize) -> [u8; 16]
        requires { r ≤ 10 }
        ensures value { result ≡ round_key self.now r }
        // The first of them is the key.
        ensures first { round_key self.now 0 ≡ self.now }
    {
        words::number_of(words::key_at(&self.words, 4 * r)).to_le_bytes()
    }

    /// The block `block` encrypted, each as the number whose lowest octet is the block's first (FIPS 197, 5.1).
    #[inline]
    pub fn encrypt_number(&self, block: u128) -> u128
        ensures { to_le_bytes w128 result ≡ encrypted self.now (to_le_bytes w128 block) }
    {
        cipher::encrypted_number(&self.words, block)
    }

    /// Encrypts one block in place (FIPS 197, 5.1).
    #[inline]
    pub fn encrypt(&self, block: &mut [u8; 16])
        ensures value { block.new ≡ encrypted self.now block.old }
        ensures whole { IsBlock block.new }

        // The inverse cipher undoes it.
        ensures undone { decrypted self.now block.new ≡ block.old }
    {
        let cipher = self.encrypt_number(u128::from_le_bytes(*block));
        *block = cipher.to_le_bytes();
    }

    /// Decrypts one block in place (FIPS 197, 5.3).
    #[inline]
    pub fn decrypt(&self, block: &mut [u8; 16])
        ensures value { block.new ≡ decrypted self.now block.old }
        ensures whole { IsBlock block.new }

        // The cipher undoes it, and it undoes the cipher.
        ensures undone { encrypted self.now block.new ≡ block.old }
        ensures undoes { (b : List ℕ) → IsBlock b → block.old ≡ encrypted self.now b → block.new ≡ b }
    {
        let cipher = u128::from_le_bytes(*block);
        let plain = inverse::decrypted_number(&self.unmixed, &self.words, cipher);
        *block = plain.to_le_bytes();
    }
}

// The name alone.
impl Debug for RoundKeys {
    ghost debug_output = { λ _. Some (codes "RoundKeys") };

    fn fmt<W: Write>(&self, f: &mut Formatter<W>) -> fmt::Result {
        f.write_str("RoundKeys")
    }
}
