use crate::{Found, OneKeyRing, SetError, find_key, unwrap, wrap};
use packet_model::BadCause;
use secret_key::{Fek, Kek};
use std::alloc::AllocError;
use std::test::Fail;

const OURS: [u8; 8] = [1, 2, 3, 4, 5, 6, 7, 8];

const THEIRS: [u8; 8] = [8, 7, 6, 5, 4, 3, 2, 1];

// The key of FIPS 197, C.1, and zeros.
fn kek() -> Kek {
    let mut octets = [0; 64];
    octets[..16].copy_from_slice(&[0, 1, 2, 3, 4, 5, 6, 7, 8, 9, 10, 11, 12, 13, 14, 15]);
    Kek::new(octets)
}

// A pair with the block of FIPS 197, C.1, wrapped, or with another block.
fn push_pair(
    octets: &mut Vec<u8>,
    cipher: u8,
    first: u8,
    signature: [u8; 8],
) -> Result<(), AllocError> {
    octets.extend_from_slice(&[
        0x8c, 0x1d, 0x04, cipher, 0x03, 0x01, 0x00, 0x11, 0x22, 0x33, 0x44, 0x55, 0x66, 0x77, 0x60,
    ])?;
    octets.extend_from_slice(&[
        first, 0xc4, 0xe0, 0xd8, 0x6a, 0x7b, 0x04, 0x30, 0xd8, 0xcd, 0xb7, 0x80, 0x70, 0xb4, 0xc5,
        0x5a,
    ])?;
    octets.extend_from_slice(&[
        0xed, 0x16, 0x62, 0x08, 0x5f, 0x43, 0x4f, 0x4e, 0x53, 0x4f, 0x4c, 0x45, 0x00, 0x00, 0x00,
        0x00,
    ])?;
    octets.extend_from_slice(&signature)
}

// The file key with its signature, or why there is none.
fn outcome(rt: &HostRuntime, octets: &[u8]) -> Result<([u8; 16], [u8; 8]), SetError> {
    let ring = OneKeyRing::new(kek(), OURS);
    let found = find_key(rt.alloc(), octets, &ring);
    ring.end();
    let Found { fek, signature } = found?;
    let key = *fek.octets();
    fek.spend();
    Ok((key, signature))
}

// The block of FIPS 197, C.1.
const KEY: [u8; 16] = [
    0x00, 0x11, 0x22, 0x33, 0x44, 0x55, 0x66, 0x77, 0x88, 0x99, 0xaa, 0xbb, 0xcc, 0xdd, 0xee, 0xff,
];

#[test]
fn finds_the_second_of_three(rt: HostRuntime) -> Result<(), Fail> {
    let mut octets = Vec::new(rt.alloc());
    push_pair(&mut octets, 7, 0x00, THEIRS)?;
    push_pair(&mut octets, 7, 0x69, OURS)?;
    push_pair(&mut octets, 7, 0x00, THEIRS)?;
    assert_eq!(rt; outcome(&rt, &octets), Ok((KEY, OURS)));
    assert_eq!(rt; octets.len(), 165);
    octets[110] = 0x01;
    assert_eq!(rt;
        outcome(&rt, &octets),
        Err(SetError::Bad(BadCause::Tag1(136)))
    );
    octets[110] = 0x8c;
    octets[55] = 0x01;
    assert_eq!(rt;
        outcome(&rt, &octets),
        Err(SetError::Bad(BadCause::Tag1(81)))
    );
    Ok(())
}

// FIPS 197, C.1.
#[test]
fn wraps_and_unwraps_a_key(rt: HostRuntime) {
    let wrapped = [
        0x69, 0xc4, 0xe0, 0xd8, 0x6a, 0x7b, 0x04, 0x30, 0xd8, 0xcd, 0xb7, 0x80, 0x70, 0xb4, 0xc5,
        0x5a,
    ];
    let kek = kek();
    let fek = Fek::new(KEY);
    assert_eq!(rt; wrap(&kek, &fek), wrapped);
    fek.spend();
    let fek = unwrap(&kek, &wrapped);
    assert_eq!(rt; *fek.octets(), KEY);
    fek.spend();
    kek.spend();
}
