// The inverse cipher on the planes of eight blocks.
ghost use Rattle.std.specs.Prelude.{◌≡◌, ℕ, ◌<◌, List, length};
ghost use Rattle.cipher_model.specs.Aes.{add_round_key, decrypted, inv_mix_columns, inv_shift_rows, inv_sub_bytes};
ghost use Rattle.aes_planes.specs.Planes.{AreRoundKeys, block_in};

use crate::planes::{Planes, all_rows_of, as_block, as_blocks};
use crate::steps::{add, inv_mix, inv_shift};
use crate::sub_bytes::inv_sub_bits;
use crate::transpose::transpose_bits;
use aes_block::RoundKeys;
use std::fmt::{self, Debug, Formatter, Write};
use std::marker::Model;
use std::simd::prelude::*;

#[inline(always)]
fn last_unround(q: Planes, k: Planes) -> Planes
    ensures { (m : ℕ) → m < 8 → block_in result m ≡ add_round_key (inv_sub_bytes (inv_shift_rows (block_in q m))) (block_in k m) }
{
    add(inv_sub_bits(inv_shift(q)), k)
}

// A round of the inverse cipher, and its last.
#[inline(always)]
fn unround(q: Planes, k: Planes) -> Planes
    ensures { (m : ℕ) → m < 8 → block_in result m ≡ inv_mix_columns (add_round_key (inv_sub_bytes (inv_shift_rows (block_in q m))) (block_in k m)) }
{
    inv_mix(last_unround(q, k))
}

// Planes of eight blocks, each the same.
fn repeated_block(block: [u8; 16]) -> Planes
    ensures { (m : ℕ) → m < 8 → block_in result m ≡ block }
{
    let k = as_block(u8x16::from_array(block));
    let blocks = Planes {
        p0: k,
        p1: k,
        p2: k,
        p3: k,
        p4: k,
        p5: k,
        p6: k,
        p7: k,
    };
    transpose_bits(all_rows_of(blocks))
}

// The inverse cipher on planes, with the round keys in planes.
#[inline(always)]
fn inv_cipher(rounds: &[Planes; 11], q: Planes) -> Planes
    ensures value { (k : List ℕ) → length k ≡ 16 → AreRoundKeys k rounds.now
        → (m : ℕ) → m < 8 → block_in result m ≡ decrypted k (block_in q m) }
    // What the type says, for the caller.
    ensures long { length rounds.now ≡ 11 }
{
    let mut s = add(q, rounds[10]);
    'rounds: for r in 1..10 {
        s = unround(s, rounds[10 - r]);
    }
    last_unround(s, rounds[0])
}

/// The round keys of a key of 16 octets in planes. A clause sees them as the list of the key's octets.
#[derive(Drop)]
pub struct PlaneKeys {
    rounds: [Planes; 11],
}

impl Model for PlaneKeys {
    ghost use Rattle.std.specs.Prelude.{List, ℕ};
    ghost use Rattle.aes_planes.specs.Planes.{AreRoundKeys, first_block};

    ghost Value = { List ℕ };

    // The first round key is the key.
    ghost view = { λ k. first_block k.rounds };

    ghost invariant = { λ k. AreRoundKeys (first_block k.rounds) k.rounds };
}

impl PlaneKeys {
    ghost use Rattle.std.specs.Prelude.{◌≡◌, ℕ, ◌<◌};
    ghost use Rattle.cipher_model.specs.Aes.{decrypted};
    ghost use Rattle.aes_planes.specs.Planes.{plane};

    /// The round keys of `keys` in planes.
    pub fn new(keys: &RoundKeys) -> PlaneKeys
        ensures { result ≡ keys.now }
    {
        let first = repeated_block(keys.round_key(0));
        let mut rounds = [first; 11];
        'keys: for r in 1..11 {
            rounds[r] = repeated_block(keys.round_key(r));
        }
        PlaneKeys { rounds }
    }

    /// Decrypts eight blocks (FIPS 197, 5.3).
    #[inline]
    pub fn decrypt(&self, blocks: Planes) -> Planes
        ensures { (m : ℕ) → m < 8 → plane result m ≡ decrypted self.now (plane blocks m) }
    {
        let whole = as_blocks(blocks);
        let planes = transpose_bits(all_rows_of(whole));
        let plain = inv_cipher(&self.rounds, planes);
        all_rows_of(transpose_bits(plain))
    }
}

// The name alone.
impl Debug for PlaneKeys {
    ghost use Rattle.std.specs.Prelude.{Some, codes};

    ghost debug_output = { λ _. Some (codes "PlaneKeys") };

    fn fmt<W: Write>(&self, f: &mut Formatter<W>) -> fmt::Result {
        f.write_str("PlaneKeys")
    }
}
