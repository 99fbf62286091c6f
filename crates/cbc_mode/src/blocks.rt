// The blocks of a text.
ghost use Rattle.std.specs.Prelude.{◌≡◌, ◌+◌, ◌*◌, ◌≤◌, length};
ghost use Rattle.cipher_model.specs.Aes.{IsBlock, xor_blocks};
ghost use Rattle.cipher_model.specs.Blocks.{block_at};
ghost use Rattle.cbc_mode.specs.BlocksInPlace.{PutsBlock};

use aes_planes::as_block;
use std::simd::prelude::*;

#[inline(always)]
pub fn block_at(octets: &[u8], i: usize) -> [u8; 16]
    requires { 16 * i + 16 ≤ length octets.now }
    ensures value { result ≡ block_at octets.now i }
    ensures block { IsBlock result }
{
    let mut block = [0u8; 16];
    block.copy_from_slice(&octets[16 * i..16 * i + 16]);
    block
}

#[inline(always)]
pub fn put_block(octets: &mut [u8], i: usize, block: &[u8; 16])
    requires { 16 * i + 16 ≤ length octets.old }
    ensures { PutsBlock octets.old octets.new i block.now }
{
    octets[16 * i..16 * i + 16].copy_from_slice(block);
}

#[inline(always)]
pub fn vector_at(octets: &[u8], i: usize) -> u8x16
    requires { 16 * i + 16 ≤ length octets.now }
    ensures value { result ≡ block_at octets.now i }
    ensures block { IsBlock result }
{
    as_block(u8x16::from_array(block_at(octets, i)))
}

#[inline(always)]
pub fn put_sum(octets: &mut [u8], i: usize, a: u8x16, b: u8x16)
    requires { 16 * i + 16 ≤ length octets.old }
    ensures { PutsBlock octets.old octets.new i (xor_blocks a b) }
{
    let sum = (a ^ b).to_array();
    put_block(octets, i, &sum);
}

// The exclusive or of two blocks.
#[inline(always)]
pub fn sum_of(a: &[u8; 16], b: &[u8; 16]) -> [u8; 16]
    ensures { result ≡ xor_blocks a.now b.now }
{
    (u8x16::from_array(*a) ^ u8x16::from_array(*b)).to_array()
}
