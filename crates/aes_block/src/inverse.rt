// The rounds of the inverse cipher, on four words, with the round keys under InvMixColumns.
ghost use Rattle.std.specs.Prelude.{◌≡◌, ◌+◌, ◌≤◌, ℕ, List};
ghost use Rattle.std.specs.Int.{to_le_bytes, w128};
ghost use Rattle.cipher_model.specs.Field.{inv_sub_byte};
ghost use Rattle.cipher_model.specs.Aes.{add_round_key, byte_of, bytes_at, decrypted_with, inv_mix_columns, inv_shift_rows, inv_sub_bytes, word};
ghost use Rattle.aes_block.specs.Words.{AreUnmixed, inv_mixed_word, unmixed_word};

use crate::cipher::subbed_column;
use crate::tables::{INV_SBOX, TD};
use crate::words::{add_round_key, byte0, byte1, byte2, byte3, key_at, number_of, words_of};

// What the column under InvMixColumns owes to one byte of each word.
#[inline(always)]
#[tactic(auto, using(crate::proofs::RoundTables::td0_at))]
fn inv_part0(w: u32) -> u32
    ensures { result ≡ inv_mixed_word (inv_sub_byte (byte_of w 0)) 0 0 0 }
{
    TD[0][byte0(w)]
}

#[inline(always)]
#[tactic(auto, using(crate::proofs::RoundTables::td1_at))]
fn inv_part1(w: u32) -> u32
    ensures { result ≡ inv_mixed_word 0 (inv_sub_byte (byte_of w 1)) 0 0 }
{
    TD[1][byte1(w)]
}

#[inline(always)]
#[tactic(auto, using(crate::proofs::RoundTables::td2_at))]
fn inv_part2(w: u32) -> u32
    ensures { result ≡ inv_mixed_word 0 0 (inv_sub_byte (byte_of w 2)) 0 }
{
    TD[2][byte2(w)]
}

#[inline(always)]
#[tactic(auto, using(crate::proofs::RoundTables::td3_at))]
fn inv_part3(w: u32) -> u32
    ensures { result ≡ inv_mixed_word 0 0 0 (inv_sub_byte (byte_of w 3)) }
{
    TD[3][byte3(w)]
}

#[inline(always)]
fn unmixed_column(a: u32, b: u32, c: u32, d: u32) -> u32
    ensures { result ≡ inv_mixed_word (inv_sub_byte (byte_of a 0)) (inv_sub_byte (byte_of b 1))
        (inv_sub_byte (byte_of c 2)) (inv_sub_byte (byte_of d 3)) }
{
    inv_part0(a) ^ inv_part1(b) ^ inv_part2(c) ^ inv_part3(d)
}

// A word of the key under InvMixColumns.
pub fn unmixed_word(w: u32) -> u32
    ensures { result ≡ unmixed_word w }
{
    let s = subbed_column(w, w, w, w);
    unmixed_column(s, s, s, s)
}

pub fn unmixed_words(ws: &[u32; 44]) -> [u32; 44]
    ensures { AreUnmixed result ws.now }
{
    let mut us = [0u32; 44];
    'words: for i in 0..44 {
        us[i] = unmixed_word(ws[i]);
    }
    us
}

#[inline(always)]
fn unround_at(s: [u32; 4], us: &[u32; 44], i: usize) -> [u32; 4]
    requires { i + 4 ≤ 44 }
    ensures { (ws : List ℕ) → AreUnmixed us.now ws
        → bytes_at result 0 ≡ inv_mix_columns (add_round_key (inv_sub_bytes (inv_shift_rows (bytes_at s 0))) (bytes_at ws i)) }
{
    let [a, b, c, d] = s;
    // The key's word comes first: as the last term it makes LLVM gather the words into a vector, at two thirds of the speed.
    [
        us[i] ^ unmixed_column(a, d, c, b),
        us[i + 1] ^ unmixed_column(b, a, d, c),
        us[i + 2] ^ unmixed_column(c, b, a, d),
        us[i + 3] ^ unmixed_column(d, c, b, a),
    ]
}

#[inline(always)]
#[tactic(auto, using(crate::proofs::SubByteTables::inv_sbox_at))]
fn inv_sub_byte(x: u8) -> u8
    ensures { result ≡ inv_sub_byte x }
{
    INV_SBOX[x as usize]
}

#[inline(always)]
fn unsubbed_column(a: u32, b: u32, c: u32, d: u32) -> u32
    ensures { result ≡ word (inv_sub_byte (byte_of a 0)) (inv_sub_byte (byte_of b 1))
        (inv_sub_byte (byte_of c 2)) (inv_sub_byte (byte_of d 3)) }
{
    let bytes = [
        inv_sub_byte(byte0(a) as u8),
        inv_sub_byte(byte1(b) as u8),
        inv_sub_byte(byte2(c) as u8),
        inv_sub_byte(byte3(d) as u8),
    ];
    u32::from_be_bytes(bytes)
}

#[inline(always)]
fn last_unround(s: [u32; 4], k: [u32; 4]) -> [u32; 4]
    ensures { bytes_at result 0 ≡ add_round_key (inv_sub_bytes (inv_shift_rows (bytes_at s 0))) (bytes_at k 0) }
{
    let [a, b, c, d] = s;
    let [p, q, r, t] = k;
    [
        unsubbed_column(a, d, c, b) ^ p,
        unsubbed_column(b, a, d, c) ^ q,
        unsubbed_column(c, b, a, d) ^ r,
        unsubbed_column(d, c, b, a) ^ t,
    ]
}

#[inline(always)]
fn last_unround_at(s: [u32; 4], ws: &[u32; 44], i: usize) -> [u32; 4]
    requires { i + 4 ≤ 44 }
    ensures { bytes_at result 0 ≡ add_round_key (inv_sub_bytes (inv_shift_rows (bytes_at s 0))) (bytes_at ws.now i) }
{
    let [a, b, c, d] = s;
    last_unround([a, b, c, d], key_at(ws, i))
}

#[inline(always)]
fn decrypted_words(us: &[u32; 44], ws: &[u32; 44], block: [u32; 4]) -> [u32; 4]
    requires { AreUnmixed us.now ws.now }
    ensures { bytes_at result 0 ≡ decrypted_with 10 ws.now (bytes_at block 0) }
{
    let mut s = add_round_key(block, ws, 40);
    'rounds: for r in 1..10 {
        s = unround_at(s, us, 4 * (10 - r));
    }
    let [a, b, c, d] = s;
    last_unround_at([a, b, c, d], ws, 0)
}

// The block as a number, its first octet the lowest.
#[inline(never)]
pub fn decrypted_number(us: &[u32; 44], ws: &[u32; 44], block: u128) -> u128
    requires { AreUnmixed us.now ws.now }
    ensures { to_le_bytes w128 result ≡ decrypted_with 10 ws.now (to_le_bytes w128 block) }
{
    number_of(decrypted_words(us, ws, words_of(block)))
}
