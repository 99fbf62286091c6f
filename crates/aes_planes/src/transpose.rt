// Eight blocks to their bit planes, and back: a transposition of 8 by 8 bits in each lane, by three exchanges.
ghost use Rattle.std.specs.Prelude.{◌≡◌, ℕ, ◌<◌, ◌+◌, ◌-◌, if◌then◌else◌, nat_lt};
ghost use Rattle.std.specs.Int.{bit_at};
ghost use Rattle.std.specs.Int.Bits.{bit_and};
ghost use Rattle.aes_planes.specs.Planes.{bit_of, block_in, by_rows, first_exchanged, plane, second_exchanged};

use crate::planes::{Planes, as_blocks, xor};
use std::simd::prelude::*;

// Each lane's bits, n places down, with none above.
#[inline(always)]
fn right(a: u8x16, n: u8) -> u8x16
    requires { n < 8 }
    ensures { (i m : ℕ) → i < 16 → bit_of result i m ≡ bit_of a i (m + n) }
{
    a >> u8x16::splat(n)
}

// Each lane's bits, n places up.
#[inline(always)]
fn left(a: u8x16, n: u8) -> u8x16
    requires { n < 8 }
    ensures { (i m : ℕ) → i < 16 → m < 8 → bit_of result i m ≡ (if nat_lt m n then 0 else bit_of a i (m - n)) }
{
    a << u8x16::splat(n)
}

#[inline(always)]
fn with_mask(a: u8x16, mask: u8) -> u8x16
    ensures { (i m : ℕ) → i < 16 → bit_of result i m ≡ bit_and (bit_of a i m) (bit_at mask m) }
{
    a & u8x16::splat(mask)
}

#[inline(always)]
fn exchange1(a: u8x16, b: u8x16) -> (u8x16, u8x16)
    ensures { (i m : ℕ) → i < 16 → m < 8 → (bit_of result.0 i m ≡ first_exchanged 1 a b i m) × (bit_of result.1 i m ≡ second_exchanged 1 a b i m) }
{
    let d = xor(right(a, 1), b);
    let t = with_mask(d, 0x55);
    let x = xor(a, left(t, 1));
    let y = xor(b, t);
    (x, y)
}

#[inline(always)]
fn exchange2(a: u8x16, b: u8x16) -> (u8x16, u8x16)
    ensures { (i m : ℕ) → i < 16 → m < 8 → (bit_of result.0 i m ≡ first_exchanged 2 a b i m) × (bit_of result.1 i m ≡ second_exchanged 2 a b i m) }
{
    let d = xor(right(a, 2), b);
    let t = with_mask(d, 0x33);
    let x = xor(a, left(t, 2));
    let y = xor(b, t);
    (x, y)
}

#[inline(always)]
fn exchange4(a: u8x16, b: u8x16) -> (u8x16, u8x16)
    ensures { (i m : ℕ) → i < 16 → m < 8 → (bit_of result.0 i m ≡ first_exchanged 4 a b i m) × (bit_of result.1 i m ≡ second_exchanged 4 a b i m) }
{
    let d = xor(right(a, 4), b);
    let t = with_mask(d, 0x0f);
    let x = xor(a, left(t, 4));
    let y = xor(b, t);
    (x, y)
}

// Bit m of plane b is bit b of plane m.
#[inline(always)]
fn exchange_bits(q: Planes) -> Planes
    ensures { (b : ℕ) → b < 8 → (m : ℕ) → m < 8 → (i : ℕ) → i < 16 → bit_of (plane result b) i m ≡ bit_of (plane q m) i b }
{
    let Planes {
        p0,
        p1,
        p2,
        p3,
        p4,
        p5,
        p6,
        p7,
    } = q;
    let (a0, a1) = exchange1(p0, p1);
    let (a2, a3) = exchange1(p2, p3);
    let (a4, a5) = exchange1(p4, p5);
    let (a6, a7) = exchange1(p6, p7);
    let (b0, b2) = exchange2(a0, a2);
    let (b1, b3) = exchange2(a1, a3);
    let (b4, b6) = exchange2(a4, a6);
    let (b5, b7) = exchange2(a5, a7);
    let (p0, p4) = exchange4(b0, b4);
    let (p1, p5) = exchange4(b1, b5);
    let (p2, p6) = exchange4(b2, b6);
    let (p3, p7) = exchange4(b3, b7);
    Planes {
        p0,
        p1,
        p2,
        p3,
        p4,
        p5,
        p6,
        p7,
    }
}

// From blocks whose bytes stand row by row to planes, and back.
#[inline(always)]
pub fn transpose_bits(q: Planes) -> Planes
    ensures to_planes { (m : ℕ) → m < 8 → block_in result m ≡ by_rows (plane q m) }
    ensures from_planes { (m : ℕ) → m < 8 → plane result m ≡ by_rows (block_in q m) }
{
    let blocks = as_blocks(q);
    let bits = exchange_bits(blocks);
    as_blocks(bits)
}
