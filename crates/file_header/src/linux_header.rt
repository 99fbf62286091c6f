// A header that Linux wrote, and what becomes of it where one octet is another. The key of its passphrase comes from another
// implementation of SHA-512, its file key from one of AES; with that the body shows the file's content.
ghost use Rattle.std.specs.Prelude.{◌<◌};

use crate::tests::{Values, values_of};
use crate::{BadCause, HeaderError, MetaPlace};
use packet_set::OneKeyRing;
use secret_key::Kek;

// The octets from offset 81 to 8,191 are zeros.
const WRITTEN: [u8; 81] = [
    0x00, 0x00, 0x00, 0x00, 0x00, 0x00, 0x13, 0x88, 0x6a, 0x15, 0x41, 0xb2, 0x56, 0x94, 0xf6, 0x47,
    0x03, 0x00, 0x00, 0x0a, 0x00, 0x00, 0x10, 0x00, 0x00, 0x02, 0x8c, 0x1d, 0x04, 0x07, 0x03, 0x01,
    0x00, 0x11, 0x22, 0x33, 0x44, 0x55, 0x66, 0x77, 0x60, 0x60, 0x6c, 0x60, 0x5b, 0xe5, 0x24, 0x53,
    0xff, 0xd1, 0x92, 0xa1, 0x9e, 0x3f, 0x7c, 0x15, 0x07, 0xed, 0x16, 0x62, 0x08, 0x5f, 0x43, 0x4f,
    0x4e, 0x53, 0x4f, 0x4c, 0x45, 0x00, 0x00, 0x00, 0x00, 0x4b, 0x8e, 0xcb, 0xaf, 0x2b, 0xdd, 0x68,
    0x51,
];

// SHA-512, 65,536 times, of the salt 0011223344556677 and the passphrase `kelp-spade-2026`.
const KEK: [u8; 64] = [
    0x0e, 0x5c, 0x29, 0xbe, 0xca, 0x5c, 0xf2, 0xa3, 0xaa, 0x5b, 0x5d, 0xc1, 0x9e, 0x60, 0xc3, 0x5a,
    0x5a, 0x80, 0x01, 0xe0, 0xc9, 0xdc, 0x5c, 0xed, 0x8a, 0x30, 0x84, 0xaa, 0x46, 0xb5, 0xbb, 0xd8,
    0x6a, 0x45, 0xcb, 0x27, 0x67, 0x13, 0x50, 0xb1, 0x39, 0x7b, 0xde, 0x7e, 0x56, 0x0b, 0x47, 0x6e,
    0x43, 0xa5, 0x91, 0x13, 0xd6, 0x49, 0x49, 0x00, 0x01, 0x64, 0x01, 0xbc, 0x07, 0xc4, 0x9d, 0x13,
];

const SIGNATURE: [u8; 8] = [0x4b, 0x8e, 0xcb, 0xaf, 0x2b, 0xdd, 0x68, 0x51];

const KEY: [u8; 16] = [
    0xbe, 0x6d, 0xaf, 0xee, 0xe8, 0x78, 0x67, 0x10, 0xdd, 0xe5, 0xee, 0x88, 0xad, 0xc1, 0x20, 0xd3,
];

// From the first offset to the last, what is read where all bits of the octet there are turned.
const OPENED: [(usize, usize, Values); 10] = [
    (5, 5, (16_716_680, 10, 8192, KEY)),
    (6, 6, (60_552, 10, 8192, KEY)),
    (7, 7, (4983, 10, 8192, KEY)),
    (17, 17, (5000, 0xff_000a, 8192, KEY)),
    (18, 18, (5000, 0xff0a, 8192, KEY)),
    (25, 25, (5000, 10, 1_036_288, KEY)),
    (32, 40, (5000, 10, 8192, KEY)),
    (59, 59, (5000, 10, 8192, KEY)),
    (61, 72, (5000, 10, 8192, KEY)),
    (81, 8191, (5000, 10, 8192, KEY)),
];

const REFUSED: [(usize, usize, BadCause); 34] = [
    (0, 0, BadCause::TooLarge(0xff00_0000_0000_1388)),
    (1, 1, BadCause::TooLarge(0xff_0000_0000_1388)),
    (2, 2, BadCause::TooLarge(0xff00_0000_1388)),
    (3, 3, BadCause::TooLarge(0xff_0000_1388)),
    (4, 4, BadCause::TooLarge(0xff00_1388)),
    (8, 8, BadCause::Marker(0x9515_41b2, 0x5694_f647)),
    (9, 9, BadCause::Marker(0x6aea_41b2, 0x5694_f647)),
    (10, 10, BadCause::Marker(0x6a15_beb2, 0x5694_f647)),
    (11, 11, BadCause::Marker(0x6a15_414d, 0x5694_f647)),
    (12, 12, BadCause::Marker(0x6a15_41b2, 0xa994_f647)),
    (13, 13, BadCause::Marker(0x6a15_41b2, 0x566b_f647)),
    (14, 14, BadCause::Marker(0x6a15_41b2, 0x5694_0947)),
    (15, 15, BadCause::Marker(0x6a15_41b2, 0x5694_f6b8)),
    (16, 16, BadCause::Version(0xfc)),
    (19, 19, BadCause::Hmac),
    (20, 20, BadCause::HeaderSize(8_556_388_352)),
    (21, 21, BadCause::HeaderSize(33_431_552)),
    (22, 22, BadCause::HeaderSize(122_368)),
    (23, 23, BadCause::HeaderSize(8702)),
    (24, 24, BadCause::HeaderSize(267_395_072)),
    (26, 26, BadCause::NoPacket),
    (27, 28, BadCause::Packet(26)),
    (29, 29, BadCause::Cipher(0xf8)),
    (30, 31, BadCause::Packet(26)),
    (57, 58, BadCause::Packet(57)),
    (60, 60, BadCause::Packet(57)),
    (
        73,
        73,
        BadCause::WrongKey([0xb4, 0x8e, 0xcb, 0xaf, 0x2b, 0xdd, 0x68, 0x51], SIGNATURE),
    ),
    (
        74,
        74,
        BadCause::WrongKey([0x4b, 0x71, 0xcb, 0xaf, 0x2b, 0xdd, 0x68, 0x51], SIGNATURE),
    ),
    (
        75,
        75,
        BadCause::WrongKey([0x4b, 0x8e, 0x34, 0xaf, 0x2b, 0xdd, 0x68, 0x51], SIGNATURE),
    ),
    (
        76,
        76,
        BadCause::WrongKey([0x4b, 0x8e, 0xcb, 0x50, 0x2b, 0xdd, 0x68, 0x51], SIGNATURE),
    ),
    (
        77,
        77,
        BadCause::WrongKey([0x4b, 0x8e, 0xcb, 0xaf, 0xd4, 0xdd, 0x68, 0x51], SIGNATURE),
    ),
    (
        78,
        78,
        BadCause::WrongKey([0x4b, 0x8e, 0xcb, 0xaf, 0x2b, 0x22, 0x68, 0x51], SIGNATURE),
    ),
    (
        79,
        79,
        BadCause::WrongKey([0x4b, 0x8e, 0xcb, 0xaf, 0x2b, 0xdd, 0x97, 0x51], SIGNATURE),
    ),
    (
        80,
        80,
        BadCause::WrongKey([0x4b, 0x8e, 0xcb, 0xaf, 0x2b, 0xdd, 0x68, 0xae], SIGNATURE),
    ),
];

fn header() -> [u8; 8192] {
    let mut octets = [0; 8192];
    octets[..81].copy_from_slice(&WRITTEN);
    octets
}

fn read(rt: &HostRuntime, octets: &[u8]) -> Result<Values, HeaderError> {
    let ring = OneKeyRing::new(Kek::new(KEK), SIGNATURE);
    values_of(rt, octets, MetaPlace::Header, ring)
}

// Whether this is read wherever one of these octets is turned.
fn reads(rt: &HostRuntime, first: usize, last: usize, want: Result<Values, HeaderError>) -> bool
    requires { last < 8192 }
{
    let mut octets = header();
    for offset in first..=last {
        octets[offset] ^= 0xff;
        if read(rt, &octets) != want {
            return false;
        }
        octets[offset] ^= 0xff;
    }
    true
}

#[test]
fn opens(rt: HostRuntime) {
    assert_eq!(rt; read(&rt, &header()), Ok((5000, 10, 8192, KEY)));
}

#[test]
fn opens_with_another_octet(rt: HostRuntime) {
    for (first, last, want) in OPENED {
        assert!(rt; last < 8192);
        assert!(rt;
            reads(&rt, first, last, Ok(want)),
            "the octets {first} to {last}"
        );
    }
}

fn has_another_key(read: &Result<Values, HeaderError>) -> bool {
    *read != Ok((5000, 10, 8192, KEY)) && matches!(read, Ok((5000, 10, 8192, _)))
}

#[test]
fn opens_with_another_key(rt: HostRuntime) {
    let mut octets = header();
    for offset in 41..57 {
        octets[offset] ^= 0xff;
        let other = read(&rt, &octets);
        assert!(rt; has_another_key(&other), "the octet {offset}");
        octets[offset] ^= 0xff;
    }
}

#[test]
fn is_refused_with_another_octet(rt: HostRuntime) {
    for (first, last, cause) in REFUSED {
        assert!(rt; last < 8192);
        let want = Err(HeaderError::Bad(cause));
        assert!(rt;
            reads(&rt, first, last, want),
            "the octets {first} to {last}"
        );
    }
}
