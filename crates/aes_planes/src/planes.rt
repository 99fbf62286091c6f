// Vectors of 16 octets, and the operations of a circuit on all their bits at once.
ghost use Rattle.std.specs.Prelude.{◌≡◌, ℕ, ◌<◌};
ghost use Rattle.std.specs.Int.Bits.{bit_xor, bit_and};
ghost use Rattle.cipher_model.specs.Aes.{IsBlock};
ghost use Rattle.aes_planes.specs.Planes.{bit_of, by_rows, plane};

use std::simd::prelude::*;

/// Eight vectors of 16 octets: eight blocks, one in each, or the bit planes of those blocks, where bit `m` of a lane of plane `b` is
/// bit `b` of an octet of block `m`. In planes the octets stand row by row (FIPS 197, 3.4).
#[derive(Clone, Copy, Debug)]
pub struct Planes {
    pub p0: u8x16,
    pub p1: u8x16,
    pub p2: u8x16,
    pub p3: u8x16,
    pub p4: u8x16,
    pub p5: u8x16,
    pub p6: u8x16,
    pub p7: u8x16,
}

#[inline(always)]
pub fn xor(a: u8x16, b: u8x16) -> u8x16
    ensures { (i m : ℕ) → bit_of result i m ≡ bit_xor (bit_of a i m) (bit_of b i m) }
{
    a ^ b
}

#[inline(always)]
pub fn and(a: u8x16, b: u8x16) -> u8x16
    ensures { (i m : ℕ) → bit_of result i m ≡ bit_and (bit_of a i m) (bit_of b i m) }
{
    a & b
}

#[inline(always)]
pub fn not(a: u8x16) -> u8x16
    ensures { (i m : ℕ) → i < 16 → m < 8 → bit_of result i m ≡ bit_xor (bit_of a i m) 1 }
{
    a ^ u8x16::splat(255)
}

/// The vector itself. What its type says of it, that it has 16 octets, is a fact after the call.
#[inline(always)]
pub fn as_block(a: u8x16) -> u8x16
    ensures value { result ≡ a }
    ensures block { IsBlock result }
{
    a
}

// The planes themselves, with what their types say.
#[inline(always)]
pub fn as_blocks(q: Planes) -> Planes
    ensures value { result ≡ q }
    ensures blocks { (m : ℕ) → m < 8 → IsBlock (plane result m) }
{
    let Planes {
        p0: q0,
        p1: q1,
        p2: q2,
        p3: q3,
        p4: q4,
        p5: q5,
        p6: q6,
        p7: q7,
    } = q;
    let r0 = as_block(q0);
    let r1 = as_block(q1);
    let r2 = as_block(q2);
    let r3 = as_block(q3);
    let r4 = as_block(q4);
    let r5 = as_block(q5);
    let r6 = as_block(q6);
    let r7 = as_block(q7);
    Planes {
        p0: r0,
        p1: r1,
        p2: r2,
        p3: r3,
        p4: r4,
        p5: r5,
        p6: r6,
        p7: r7,
    }
}

#[inline(always)]
fn rows_of(a: u8x16) -> u8x16
    ensures { result ≡ by_rows a }
{
    a.swizzle([0, 4, 8, 12, 1, 5, 9, 13, 2, 6, 10, 14, 3, 7, 11, 15])
}

// The octets of each block row by row, or of such rows column by column again.
#[inline(always)]
pub fn all_rows_of(q: Planes) -> Planes
    ensures { (m : ℕ) → m < 8 → plane result m ≡ by_rows (plane q m) }
{
    let Planes {
        p0: q0,
        p1: q1,
        p2: q2,
        p3: q3,
        p4: q4,
        p5: q5,
        p6: q6,
        p7: q7,
    } = q;
    let r0 = rows_of(q0);
    let r1 = rows_of(q1);
    let r2 = rows_of(q2);
    let r3 = rows_of(q3);
    let r4 = rows_of(q4);
    let r5 = rows_of(q5);
    let r6 = rows_of(q6);
    let r7 = rows_of(q7);
    Planes {
        p0: r0,
        p1: r1,
        p2: r2,
        p3: r3,
        p4: r4,
        p5: r5,
        p6: r6,
        p7: r7,
    }
}
