//! Enciphers or deciphers one mebibyte of zeros as often as is said, in extents of 4,096 octets in place, and prints the SHA-256 of what comes
//! of it. The words are `encrypt N` or `decrypt N`. `bench/ciphers.sh` times it.
#![tactic(auto)]

use aes_block::RoundKeys;
use anyhow::{Context, Result, bail};
use cbc_mode::{cbc_decrypt, cbc_encrypt};
use sha2::{Digest, Sha256};
use std::env;

const EXTENT: usize = 4096;

const TEXT: usize = 1024 * 1024;

#[derive(Clone, Copy)]
enum Direction {
    Encrypt,
    Decrypt,
}

/// The key of FIPS 197, C.1: the octets from 0 to 15.
const KEY: [u8; 16] = [0, 1, 2, 3, 4, 5, 6, 7, 8, 9, 10, 11, 12, 13, 14, 15];

/// Each extent's initial block is its number.
fn work_once(keys: &RoundKeys, direction: Direction, text: &mut [u8]) {
    for n in 0..text.len() / EXTENT {
        let iv = (n as u128).to_be_bytes();
        let extent = &mut text[n * EXTENT..n * EXTENT + EXTENT];
        match direction {
            Direction::Encrypt => cbc_encrypt(keys, &iv, extent),
            Direction::Decrypt => cbc_decrypt(keys, &iv, extent),
        }
    }
}

fn direction_of(word: &str) -> Result<Direction> {
    match word {
        "encrypt" => Ok(Direction::Encrypt),
        "decrypt" => Ok(Direction::Decrypt),
        _ => bail!("the first word is `encrypt` or `decrypt`"),
    }
}

fn main(rt: HostRuntime) -> Result<()> {
    let mut words = env::args(&rt)?;
    let _program = words.next();
    let first = words.next().context("no direction")?;
    let direction = direction_of(&first)?;
    let second = words.next().context("no number of mebibytes")?;
    let mebibytes = second.parse::<u32>().context("not a number of mebibytes")?;
    let keys = RoundKeys::new(&KEY);
    let mut text = vec![in rt.alloc(); 0u8; TEXT]?;
    for _ in 0..mebibytes {
        work_once(&keys, direction, &mut text);
    }
    let digest = Sha256::digest(text.as_slice());
    println!(rt; "{}", hex::encode(rt.alloc(), digest.as_slice())?)?;
    Ok(())
}
