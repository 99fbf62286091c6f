use crate::{HeaderError, Meta, MetaPlace, NewMeta, read_header, write_header, write_size};
use packet_set::OneKeyRing;
use secret_key::Kek;
use std::test::Fail;

const SIGNATURE: [u8; 8] = [1, 2, 3, 4, 5, 6, 7, 8];

// The wrapped key is the cipher text of FIPS 197, C.1.
const NEW: NewMeta = NewMeta {
    size: 1,
    m1: 0x1122_3344,
    flags: 0x2,
    salt: [0x00, 0x11, 0x22, 0x33, 0x44, 0x55, 0x66, 0x77],
    wrapped: [
        0x69, 0xc4, 0xe0, 0xd8, 0x6a, 0x7b, 0x04, 0x30, 0xd8, 0xcd, 0xb7, 0x80, 0x70, 0xb4, 0xc5,
        0x5a,
    ],
    signature: SIGNATURE,
    meta_place: MetaPlace::Header,
};

// A header as the usual tool writes it.
const FIELDS: [u8; 26] = [
    0x00, 0x00, 0x00, 0x00, 0x00, 0x00, 0x00, 0x01, 0x11, 0x22, 0x33, 0x44, 0x2d, 0xa3, 0x84, 0xb1,
    0x03, 0x00, 0x00, 0x0a, 0x00, 0x00, 0x10, 0x00, 0x00, 0x02,
];

const PACKETS: [u8; 55] = [
    0x8c, 0x1d, 0x04, 0x07, 0x03, 0x01, 0x00, 0x11, 0x22, 0x33, 0x44, 0x55, 0x66, 0x77, 0x60, 0x69,
    0xc4, 0xe0, 0xd8, 0x6a, 0x7b, 0x04, 0x30, 0xd8, 0xcd, 0xb7, 0x80, 0x70, 0xb4, 0xc5, 0x5a, 0xed,
    0x16, 0x62, 0x08, 0x5f, 0x43, 0x4f, 0x4e, 0x53, 0x4f, 0x4c, 0x45, 0x00, 0x00, 0x00, 0x00, 0x01,
    0x02, 0x03, 0x04, 0x05, 0x06, 0x07, 0x08,
];

fn tool_header() -> [u8; 81] {
    let mut octets = [0; 81];
    octets[..26].copy_from_slice(&FIELDS);
    octets[26..].copy_from_slice(&PACKETS);
    octets
}

/// The size, the flags, the size of the metadata and the file key.
pub type Values = (u64, u32, u64, [u8; 16]);

/// What is read of some octets, or why nothing is. The ring's key is spent.
pub fn values_of(
    rt: &HostRuntime,
    octets: &[u8],
    meta_place: MetaPlace,
    ring: OneKeyRing,
) -> Result<Values, HeaderError> {
    let read = read_header(rt.alloc(), octets, meta_place, &ring);
    ring.end();
    let Meta {
        size,
        flags,
        meta_size,
        fek,
    } = read?;
    let key = *fek.octets();
    fek.spend();
    Ok((size, flags, meta_size, key))
}

// By the key of FIPS 197, C.1, and zeros.
fn outcome(
    rt: &HostRuntime,
    octets: &[u8],
    meta_place: MetaPlace,
    signature: [u8; 8],
) -> Result<Values, HeaderError> {
    let mut key = [0; 64];
    key[..16].copy_from_slice(&[0, 1, 2, 3, 4, 5, 6, 7, 8, 9, 10, 11, 12, 13, 14, 15]);
    values_of(
        rt,
        octets,
        meta_place,
        OneKeyRing::new(Kek::new(key), signature),
    )
}

// The block of FIPS 197, C.1.
const KEY: [u8; 16] = [
    0x00, 0x11, 0x22, 0x33, 0x44, 0x55, 0x66, 0x77, 0x88, 0x99, 0xaa, 0xbb, 0xcc, 0xdd, 0xee, 0xff,
];

#[test]
fn reads_a_header(rt: HostRuntime) {
    let octets = tool_header();
    for meta_place in [MetaPlace::Header, MetaPlace::Attribute] {
        assert_eq!(rt;
            outcome(&rt, &octets, meta_place, SIGNATURE),
            Ok((1, 0xa, 8192, KEY))
        );
    }
}

#[test]
fn writes_a_header(rt: HostRuntime) -> Result<(), Fail> {
    let octets = write_header(rt.alloc(), &NEW)?;
    assert_eq!(rt; octets.len(), 8192);
    assert_eq!(rt; &octets[26..81], PACKETS.as_slice());
    assert_eq!(rt;
        outcome(&rt, &octets, MetaPlace::Header, SIGNATURE),
        Ok((1, 2, 8192, KEY))
    );
    let attribute = NewMeta {
        meta_place: MetaPlace::Attribute,
        ..NEW
    };
    let mut octets = write_header(rt.alloc(), &attribute)?;
    assert_eq!(rt; octets.len(), 81);
    write_size(&mut octets, 5);
    assert_eq!(rt;
        outcome(&rt, &octets, MetaPlace::Attribute, SIGNATURE),
        Ok((5, 2, 8192, KEY))
    );
    Ok(())
}
