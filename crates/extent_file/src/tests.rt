use crate::{Content, decode_body};
use packet_model::BadCause;
use packet_set::OneKeyRing;
use secret_key::Kek;
use std::alloc::AllocError;
use std::test::Fail;

// Metadata for 4,097 octets, as the usual tool writes it. The wrapped key is the cipher text of FIPS 197, C.1.
const METADATA: [u8; 81] = [
    0x00, 0x00, 0x00, 0x00, 0x00, 0x00, 0x10, 0x01, 0x11, 0x22, 0x33, 0x44, 0x2d, 0xa3, 0x84, 0xb1,
    0x03, 0x00, 0x00, 0x0a, 0x00, 0x00, 0x10, 0x00, 0x00, 0x02, 0x8c, 0x1d, 0x04, 0x07, 0x03, 0x01,
    0x00, 0x11, 0x22, 0x33, 0x44, 0x55, 0x66, 0x77, 0x60, 0x69, 0xc4, 0xe0, 0xd8, 0x6a, 0x7b, 0x04,
    0x30, 0xd8, 0xcd, 0xb7, 0x80, 0x70, 0xb4, 0xc5, 0x5a, 0xed, 0x16, 0x62, 0x08, 0x5f, 0x43, 0x4f,
    0x4e, 0x53, 0x4f, 0x4c, 0x45, 0x00, 0x00, 0x00, 0x00, 0x01, 0x02, 0x03, 0x04, 0x05, 0x06, 0x07,
    0x08,
];

// What OpenSSL decrypts the first block of an extent of zeros to, under the key of FIPS 197, C.1, with the IV of extent 0 by Python's
// hashlib; of extent 1 the first octet is 0xf4.
const FIRST_BLOCK: [u8; 16] = [
    0xaa, 0x09, 0x81, 0x51, 0x29, 0xc2, 0xc9, 0xd1, 0x5e, 0x03, 0xa3, 0xf9, 0xfd, 0xfc, 0x7c, 0x3f,
];

fn content_of(
    rt: &HostRuntime,
    body: &[u8],
    attribute: Option<&[u8]>,
) -> Result<Content, AllocError> {
    let mut key = [0; 64];
    key[..16].copy_from_slice(&[0, 1, 2, 3, 4, 5, 6, 7, 8, 9, 10, 11, 12, 13, 14, 15]);
    let ring = OneKeyRing::new(Kek::new(key), [1, 2, 3, 4, 5, 6, 7, 8]);
    let content = decode_body(rt.alloc(), body, attribute, &ring);
    ring.end();
    content
}

#[test]
fn a_file_of_two_extents(rt: HostRuntime) -> Result<(), Fail> {
    let mut body = Vec::from_slice(rt.alloc(), &METADATA)?;
    body.resize(16_384, 0)?;
    let extents = [0; 8192];
    for content in [
        content_of(&rt, &body, None),
        content_of(&rt, &extents, Some(&METADATA)),
    ] {
        let Content::Good(octets) = content? else {
            panic!(rt; "a good file")
        };
        assert_eq!(rt; octets.len(), 4097);
        assert_eq!(rt; &octets.as_slice()[..16], FIRST_BLOCK.as_slice());
        assert_eq!(rt; octets.as_slice()[4096], 0xf4);
    }
    Ok(())
}

#[test]
fn files_without_octets(rt: HostRuntime) -> Result<(), Fail> {
    let Content::Empty = content_of(&rt, &[], None)? else {
        panic!(rt; "an empty file")
    };
    let Content::Bad(cause) = content_of(&rt, &[0; 8191], Some(&METADATA))? else {
        panic!(rt; "a cut file")
    };
    assert_eq!(rt; cause, BadCause::ShortData(8191, 8192));
    Ok(())
}
