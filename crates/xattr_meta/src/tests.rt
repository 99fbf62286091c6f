use crate::{BadCause, FileMeta, HeaderError, MetaPlace, read_meta};
use packet_set::OneKeyRing;
use secret_key::Kek;

// Metadata for one octet, as the usual tool writes it. The wrapped key is the cipher text of FIPS 197, C.1.
const ONE_OCTET: [u8; 81] = [
    0x00, 0x00, 0x00, 0x00, 0x00, 0x00, 0x00, 0x01, 0x11, 0x22, 0x33, 0x44, 0x2d, 0xa3, 0x84, 0xb1,
    0x03, 0x00, 0x00, 0x0a, 0x00, 0x00, 0x10, 0x00, 0x00, 0x02, 0x8c, 0x1d, 0x04, 0x07, 0x03, 0x01,
    0x00, 0x11, 0x22, 0x33, 0x44, 0x55, 0x66, 0x77, 0x60, 0x69, 0xc4, 0xe0, 0xd8, 0x6a, 0x7b, 0x04,
    0x30, 0xd8, 0xcd, 0xb7, 0x80, 0x70, 0xb4, 0xc5, 0x5a, 0xed, 0x16, 0x62, 0x08, 0x5f, 0x43, 0x4f,
    0x4e, 0x53, 0x4f, 0x4c, 0x45, 0x00, 0x00, 0x00, 0x00, 0x01, 0x02, 0x03, 0x04, 0x05, 0x06, 0x07,
    0x08,
];

// The block of FIPS 197, C.1.
const KEY: [u8; 16] = [
    0x00, 0x11, 0x22, 0x33, 0x44, 0x55, 0x66, 0x77, 0x88, 0x99, 0xaa, 0xbb, 0xcc, 0xdd, 0xee, 0xff,
];

// The size, the metadata place, where the data begins and the file key; or no metadata, or why there is none.
fn outcome(
    rt: &HostRuntime,
    head: &[u8],
    attribute: Option<&[u8]>,
    len: u64,
) -> Result<Option<(u64, MetaPlace, u64, [u8; 16])>, HeaderError> {
    let mut key = [0; 64];
    key[..16].copy_from_slice(&[0, 1, 2, 3, 4, 5, 6, 7, 8, 9, 10, 11, 12, 13, 14, 15]);
    let ring = OneKeyRing::new(Kek::new(key), [1, 2, 3, 4, 5, 6, 7, 8]);
    let read = read_meta(rt.alloc(), head, attribute, len, &ring);
    ring.end();
    match read? {
        None => Ok(None),
        Some(meta) => {
            let FileMeta {
                size,
                meta_place,
                data_start,
                fek,
            } = meta;
            let key = *fek.octets();
            fek.spend();
            Ok(Some((size, meta_place, data_start, key)))
        }
    }
}

#[test]
fn the_head_of_a_body(rt: HostRuntime) {
    assert_eq!(rt; outcome(&rt, &[], None, 0), Ok(None));
    assert_eq!(rt;
        outcome(&rt, &ONE_OCTET, None, 12_287),
        Err(HeaderError::Bad(BadCause::ShortData(12_287, 12_288)))
    );
    for len in [12_288, 16_384] {
        assert_eq!(rt;
            outcome(&rt, &ONE_OCTET, None, len),
            Ok(Some((1, MetaPlace::Header, 8192, KEY)))
        );
    }
}

#[test]
fn the_attribute_alone(rt: HostRuntime) {
    assert_eq!(rt;
        outcome(&rt, &[], Some(&ONE_OCTET), 0),
        Err(HeaderError::Bad(BadCause::ShortData(0, 4096)))
    );
    assert_eq!(rt;
        outcome(&rt, &[0xff; 26], Some(&ONE_OCTET), 4096),
        Ok(Some((1, MetaPlace::Attribute, 0, KEY)))
    );
    assert_eq!(rt;
        outcome(&rt, &ONE_OCTET, Some(&[]), 12_288),
        Err(HeaderError::Bad(BadCause::Short(0)))
    );
}
