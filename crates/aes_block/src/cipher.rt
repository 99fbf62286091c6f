// The rounds of the cipher, on four words.
ghost use Rattle.std.specs.Prelude.{◌≡◌, ◌+◌, ◌≤◌};
ghost use Rattle.std.specs.Int.{to_le_bytes, w128};
ghost use Rattle.cipher_model.specs.Field.{sub_byte};
ghost use Rattle.cipher_model.specs.Aes.{add_round_key, byte_of, bytes_at, encrypted_with, mix_columns, shift_rows, sub_bytes, word};
ghost use Rattle.aes_block.specs.Words.{mixed_word};

use crate::tables::{SUB, TE};
use crate::words::{add_round_key, byte0, byte1, byte2, byte3, key_at, number_of, words_of};

// What the column owes to one byte of each word.
#[inline(always)]
#[tactic(auto, using(crate::proofs::RoundTables::te0_at))]
fn part0(w: u32) -> u32
    ensures { result ≡ mixed_word (sub_byte (byte_of w 0)) 0 0 0 }
{
    TE[0][byte0(w)]
}

#[inline(always)]
#[tactic(auto, using(crate::proofs::RoundTables::te1_at))]
fn part1(w: u32) -> u32
    ensures { result ≡ mixed_word 0 (sub_byte (byte_of w 1)) 0 0 }
{
    TE[1][byte1(w)]
}

#[inline(always)]
#[tactic(auto, using(crate::proofs::RoundTables::te2_at))]
fn part2(w: u32) -> u32
    ensures { result ≡ mixed_word 0 0 (sub_byte (byte_of w 2)) 0 }
{
    TE[2][byte2(w)]
}

#[inline(always)]
#[tactic(auto, using(crate::proofs::RoundTables::te3_at))]
fn part3(w: u32) -> u32
    ensures { result ≡ mixed_word 0 0 0 (sub_byte (byte_of w 3)) }
{
    TE[3][byte3(w)]
}

// A column of the next state, from the words whose bytes ShiftRows brings there.
#[inline(always)]
fn mixed_column(a: u32, b: u32, c: u32, d: u32) -> u32
    ensures { result ≡ mixed_word (sub_byte (byte_of a 0)) (sub_byte (byte_of b 1))
        (sub_byte (byte_of c 2)) (sub_byte (byte_of d 3)) }
{
    part0(a) ^ part1(b) ^ part2(c) ^ part3(d)
}

#[inline(always)]
fn round(s: [u32; 4], k: [u32; 4]) -> [u32; 4]
    ensures { bytes_at result 0 ≡ add_round_key (mix_columns (shift_rows (sub_bytes (bytes_at s 0)))) (bytes_at k 0) }
{
    let [a, b, c, d] = s;
    let [p, q, r, t] = k;
    [
        mixed_column(a, b, c, d) ^ p,
        mixed_column(b, c, d, a) ^ q,
        mixed_column(c, d, a, b) ^ r,
        mixed_column(d, a, b, c) ^ t,
    ]
}

#[inline(always)]
fn round_at(s: [u32; 4], ws: &[u32; 44], i: usize) -> [u32; 4]
    requires { i + 4 ≤ 44 }
    ensures { bytes_at result 0 ≡ add_round_key (mix_columns (shift_rows (sub_bytes (bytes_at s 0)))) (bytes_at ws.now i) }
{
    round(s, key_at(ws, i))
}

// What the column of the last round, which mixes no columns, owes to one byte of each word.
#[inline(always)]
#[tactic(auto, using(crate::proofs::SubByteTables::sub0_at))]
fn sub_part0(w: u32) -> u32
    ensures { result ≡ word (sub_byte (byte_of w 0)) 0 0 0 }
{
    SUB[0][byte0(w)]
}

#[inline(always)]
#[tactic(auto, using(crate::proofs::SubByteTables::sub1_at))]
fn sub_part1(w: u32) -> u32
    ensures { result ≡ word 0 (sub_byte (byte_of w 1)) 0 0 }
{
    SUB[1][byte1(w)]
}

#[inline(always)]
#[tactic(auto, using(crate::proofs::SubByteTables::sub2_at))]
fn sub_part2(w: u32) -> u32
    ensures { result ≡ word 0 0 (sub_byte (byte_of w 2)) 0 }
{
    SUB[2][byte2(w)]
}

#[inline(always)]
#[tactic(auto, using(crate::proofs::SubByteTables::sub3_at))]
fn sub_part3(w: u32) -> u32
    ensures { result ≡ word 0 0 0 (sub_byte (byte_of w 3)) }
{
    SUB[3][byte3(w)]
}

// A column of the last round's state.
#[inline(always)]
pub fn subbed_column(a: u32, b: u32, c: u32, d: u32) -> u32
    ensures { result ≡ word (sub_byte (byte_of a 0)) (sub_byte (byte_of b 1))
        (sub_byte (byte_of c 2)) (sub_byte (byte_of d 3)) }
{
    sub_part0(a) ^ sub_part1(b) ^ sub_part2(c) ^ sub_part3(d)
}

#[inline(always)]
fn last_round(s: [u32; 4], k: [u32; 4]) -> [u32; 4]
    ensures { bytes_at result 0 ≡ add_round_key (shift_rows (sub_bytes (bytes_at s 0))) (bytes_at k 0) }
{
    let [a, b, c, d] = s;
    let [p, q, r, t] = k;
    [
        subbed_column(a, b, c, d) ^ p,
        subbed_column(b, c, d, a) ^ q,
        subbed_column(c, d, a, b) ^ r,
        subbed_column(d, a, b, c) ^ t,
    ]
}

#[inline(always)]
fn last_round_at(s: [u32; 4], ws: &[u32; 44], i: usize) -> [u32; 4]
    requires { i + 4 ≤ 44 }
    ensures { bytes_at result 0 ≡ add_round_key (shift_rows (sub_bytes (bytes_at s 0))) (bytes_at ws.now i) }
{
    last_round(s, key_at(ws, i))
}

// The ten rounds, one by one: as a loop they are slower.
#[inline(always)]
fn encrypted_words(ws: &[u32; 44], block: [u32; 4]) -> [u32; 4]
    ensures { bytes_at result 0 ≡ encrypted_with 10 ws.now (bytes_at block 0) }
{
    let s0 = add_round_key(block, ws, 0);
    let s1 = round_at(s0, ws, 4);
    let s2 = round_at(s1, ws, 8);
    let s3 = round_at(s2, ws, 12);
    let s4 = round_at(s3, ws, 16);
    let s5 = round_at(s4, ws, 20);
    let s6 = round_at(s5, ws, 24);
    let s7 = round_at(s6, ws, 28);
    let s8 = round_at(s7, ws, 32);
    let s9 = round_at(s8, ws, 36);
    last_round_at(s9, ws, 40)
}

// The block as a number, its first octet the lowest. Not inlined: inside a caller's loop over blocks the ten rounds are slower.
#[inline(never)]
pub fn encrypted_number(ws: &[u32; 44], block: u128) -> u128
    ensures { to_le_bytes w128 result ≡ encrypted_with 10 ws.now (to_le_bytes w128 block) }
{
    number_of(encrypted_words(ws, words_of(block)))
}
