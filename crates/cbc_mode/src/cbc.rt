// Cipher block chaining (SP 800-38A, 6.2).
ghost use Rattle.std.specs.Prelude.{◌≡◌, ◌+◌, ◌*◌, ◌/◌, ◌%◌, ◌≤◌, List, ℕ, length};
ghost use Rattle.cipher_model.specs.Cbc.{IsCbc};
ghost use Rattle.cbc_mode.specs.BlocksInPlace.{IsDecryptedTo};

use crate::blocks::{block_at, put_block, put_sum, sum_of, vector_at};
use aes_block::RoundKeys;
use aes_planes::{PlaneKeys, Planes};
use std::simd::prelude::*;

/// Encrypts the blocks of `octets` in place, from the initial block `iv` (SP 800-38A, 6.2).
pub fn cbc_encrypt(keys: &RoundKeys, iv: &[u8; 16], octets: &mut [u8])
    requires { length octets.old % 16 ≡ 0 }
    ensures { IsCbc keys.now iv.now octets.old octets.new }
{
    // The chain is a number, so that it stays in registers.
    let mut last = u128::from_le_bytes(*iv);
    'chain: for i in 0..octets.len() / 16 {
        let plain = u128::from_le_bytes(block_at(octets, i));
        let encrypted = keys.encrypt_number(plain ^ last);
        put_block(octets, i, &encrypted.to_le_bytes());
        last = encrypted;
    }
}

// Decrypts the eight blocks from `i` on, where `last` is the block before them, and returns the last of them.
#[inline]
fn decrypt_eight(planes: &PlaneKeys, octets: &mut [u8], i: usize, last: u8x16) -> u8x16
    requires { 16 * i + 128 ≤ length octets.old }
    ensures { (iv cs : List ℕ) → IsDecryptedTo planes.now iv cs octets.old last i
        → IsDecryptedTo planes.now iv cs octets.new result (i + 8) }
{
    let c0 = vector_at(octets, i);
    let c1 = vector_at(octets, i + 1);
    let c2 = vector_at(octets, i + 2);
    let c3 = vector_at(octets, i + 3);
    let c4 = vector_at(octets, i + 4);
    let c5 = vector_at(octets, i + 5);
    let c6 = vector_at(octets, i + 6);
    let c7 = vector_at(octets, i + 7);
    let plain = planes.decrypt(Planes {
        p0: c0,
        p1: c1,
        p2: c2,
        p3: c3,
        p4: c4,
        p5: c5,
        p6: c6,
        p7: c7,
    });
    put_sum(octets, i, plain.p0, last);
    put_sum(octets, i + 1, plain.p1, c0);
    put_sum(octets, i + 2, plain.p2, c1);
    put_sum(octets, i + 3, plain.p3, c2);
    put_sum(octets, i + 4, plain.p4, c3);
    put_sum(octets, i + 5, plain.p5, c4);
    put_sum(octets, i + 6, plain.p6, c5);
    put_sum(octets, i + 7, plain.p7, c6);
    c7
}

// Decrypts as many blocks as are whole eights, and returns the block before the rest.
#[inline(never)]
fn decrypt_eights(keys: &RoundKeys, iv: &[u8; 16], octets: &mut [u8]) -> [u8; 16]
    ensures { IsDecryptedTo keys.now iv.now octets.old octets.new result (8 * (length octets.old / 128)) }
{
    if octets.len() < 128 {
        return *iv;
    }
    let planes = PlaneKeys::new(keys);
    let mut last = u8x16::from_array(*iv);
    'eights: for j in 0..octets.len() / 128 {
        last = decrypt_eight(&planes, octets, 8 * j, last);
    }
    last.to_array()
}

/// Decrypts the blocks of `octets` in place, from the initial block `iv` (SP 800-38A, 6.2).
pub fn cbc_decrypt(keys: &RoundKeys, iv: &[u8; 16], octets: &mut [u8])
    requires { length octets.old % 16 ≡ 0 }
    ensures { IsCbc keys.now iv.now octets.new octets.old }
{
    let mut last = decrypt_eights(keys, iv, octets);
    'chain: for i in 8 * (octets.len() / 128)..octets.len() / 16 {
        let cipher = block_at(octets, i);
        let mut block = cipher;
        keys.decrypt(&mut block);
        put_block(octets, i, &sum_of(&block, &last));
        last = cipher;
    }
}
