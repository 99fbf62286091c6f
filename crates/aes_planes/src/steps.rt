// The linear steps of the inverse cipher (FIPS 197, 5.3) on planes.
ghost use Rattle.std.specs.Prelude.{◌≡◌, ℕ, ◌+◌, ◌*◌, ◌/◌, ◌%◌};
ghost use Rattle.cipher_model.specs.Field.{times_x};
ghost use Rattle.cipher_model.specs.Aes.{add_round_key, below, each_byte, inv_mix_columns, inv_shift_rows, mix_columns};
ghost use Rattle.aes_planes.specs.Planes.{block_in, byte_in, lane, moved_lanes};

use crate::planes::{Planes, xor};
use std::simd::prelude::*;

#[inline(always)]
fn inv_shift_lanes(p: u8x16) -> u8x16
    ensures { result ≡ moved_lanes (λ i. (i + 12 * (i % 4)) % 16) p }
{
    p.swizzle([0, 1, 2, 3, 7, 4, 5, 6, 10, 11, 8, 9, 13, 14, 15, 12])
}

// InvShiftRows.
#[inline(always)]
pub fn inv_shift(q: Planes) -> Planes
    ensures { (m : ℕ) → block_in result m ≡ inv_shift_rows (block_in q m) }
{
    let Planes {
        p0: q0,
        p1: q1,
        p2: q2,
        p3: q3,
        p4: q4,
        p5: q5,
        p6: q6,
        p7: q7,
    } = q;
    Planes {
        p0: inv_shift_lanes(q0),
        p1: inv_shift_lanes(q1),
        p2: inv_shift_lanes(q2),
        p3: inv_shift_lanes(q3),
        p4: inv_shift_lanes(q4),
        p5: inv_shift_lanes(q5),
        p6: inv_shift_lanes(q6),
        p7: inv_shift_lanes(q7),
    }
}

#[inline(always)]
fn down_one_lanes(p: u8x16) -> u8x16
    ensures { result ≡ moved_lanes (λ i. 4 * (i / 4) + (i + 1) % 4) p }
{
    p.swizzle([4, 5, 6, 7, 8, 9, 10, 11, 12, 13, 14, 15, 0, 1, 2, 3])
}

// Each byte becomes that one row below, in its column.
#[inline(always)]
fn down_one(q: Planes) -> Planes
    ensures { (m : ℕ) → block_in result m ≡ each_byte (λ i. below (block_in q m) i 1) }
{
    let Planes {
        p0: q0,
        p1: q1,
        p2: q2,
        p3: q3,
        p4: q4,
        p5: q5,
        p6: q6,
        p7: q7,
    } = q;
    Planes {
        p0: down_one_lanes(q0),
        p1: down_one_lanes(q1),
        p2: down_one_lanes(q2),
        p3: down_one_lanes(q3),
        p4: down_one_lanes(q4),
        p5: down_one_lanes(q5),
        p6: down_one_lanes(q6),
        p7: down_one_lanes(q7),
    }
}

#[inline(always)]
fn down_two_lanes(p: u8x16) -> u8x16
    ensures { result ≡ moved_lanes (λ i. 4 * (i / 4) + (i + 2) % 4) p }
{
    p.swizzle([8, 9, 10, 11, 12, 13, 14, 15, 0, 1, 2, 3, 4, 5, 6, 7])
}

// Each byte becomes that two rows below.
#[inline(always)]
fn down_two(q: Planes) -> Planes
    ensures { (m : ℕ) → block_in result m ≡ each_byte (λ i. below (block_in q m) i 2) }
{
    let Planes {
        p0: q0,
        p1: q1,
        p2: q2,
        p3: q3,
        p4: q4,
        p5: q5,
        p6: q6,
        p7: q7,
    } = q;
    Planes {
        p0: down_two_lanes(q0),
        p1: down_two_lanes(q1),
        p2: down_two_lanes(q2),
        p3: down_two_lanes(q3),
        p4: down_two_lanes(q4),
        p5: down_two_lanes(q5),
        p6: down_two_lanes(q6),
        p7: down_two_lanes(q7),
    }
}

// The sum of two states.
#[inline(always)]
pub fn add(q: Planes, k: Planes) -> Planes
    ensures { (m : ℕ) → block_in result m ≡ add_round_key (block_in q m) (block_in k m) }
{
    let Planes {
        p0: q0,
        p1: q1,
        p2: q2,
        p3: q3,
        p4: q4,
        p5: q5,
        p6: q6,
        p7: q7,
    } = q;
    Planes {
        p0: xor(q0, k.p0),
        p1: xor(q1, k.p1),
        p2: xor(q2, k.p2),
        p3: xor(q3, k.p3),
        p4: xor(q4, k.p4),
        p5: xor(q5, k.p5),
        p6: xor(q6, k.p6),
        p7: xor(q7, k.p7),
    }
}

// Each byte times x.
#[inline(always)]
fn times_x(q: Planes) -> Planes
    ensures { (m : ℕ) → block_in result m ≡ each_byte (λ i. times_x (byte_in q (lane i) m)) }
{
    let Planes {
        p0: q0,
        p1: q1,
        p2: q2,
        p3: q3,
        p4: q4,
        p5: q5,
        p6: q6,
        p7: q7,
    } = q;
    let u1 = xor(q0, q7);
    let u3 = xor(q2, q7);
    let u4 = xor(q3, q7);
    Planes {
        p0: q7,
        p1: u1,
        p2: q1,
        p3: u3,
        p4: u4,
        p5: q4,
        p6: q5,
        p7: q6,
    }
}

// MixColumns.
#[inline(always)]
fn mix(q: Planes) -> Planes
    ensures { (m : ℕ) → block_in result m ≡ mix_columns (block_in q m) }
{
    let r = down_one(q);
    let a = add(q, r);
    add(add(times_x(a), r), down_two(a))
}

// InvMixColumns: s + 4 * (s + s two below), and then MixColumns.
#[inline(always)]
pub fn inv_mix(q: Planes) -> Planes
    ensures { (m : ℕ) → block_in result m ≡ inv_mix_columns (block_in q m) }
{
    let d = add(q, down_two(q));
    mix(add(q, times_x(times_x(d))))
}
