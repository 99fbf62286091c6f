use crate::{MAX_WRAPPED, PacketError, Tag3, read_tag3, write_tag3};
use lower_model::Items;
use std::test::Fail;

// The file key 00 11 .. ff under the key 00 01 .. 0f, whose cipher text is that of FIPS 197, C.1.
const WRAPPED: [u8; 16] = [
    0x69, 0xc4, 0xe0, 0xd8, 0x6a, 0x7b, 0x04, 0x30, 0xd8, 0xcd, 0xb7, 0x80, 0x70, 0xb4, 0xc5, 0x5a,
];

const SALT: [u8; 8] = [0x00, 0x11, 0x22, 0x33, 0x44, 0x55, 0x66, 0x77];

const PACKET: [u8; 31] = [
    0x8c, 0x1d, 0x04, 0x07, 0x03, 0x01, 0x00, 0x11, 0x22, 0x33, 0x44, 0x55, 0x66, 0x77, 0x60, 0x69,
    0xc4, 0xe0, 0xd8, 0x6a, 0x7b, 0x04, 0x30, 0xd8, 0xcd, 0xb7, 0x80, 0x70, 0xb4, 0xc5, 0x5a,
];

#[test]
fn writes_a_packet(rt: HostRuntime) -> Result<(), Fail> {
    let packet = Tag3 {
        cipher: 7,
        salt: SALT,
        count: 0x60,
        wrapped: Items::from_slice(rt.alloc(), &WRAPPED)?,
    };
    if packet.wrapped.len() <= MAX_WRAPPED {
        let octets = write_tag3(rt.alloc(), &packet)?;
        assert_eq!(rt; octets.as_slice(), PACKET.as_slice());
    }
    Ok(())
}

#[test]
fn reads_a_packet(rt: HostRuntime) -> Result<(), Fail> {
    let read = read_tag3(rt.alloc(), &PACKET);
    assert!(rt; read.is_ok());
    if let Ok((packet, used)) = read {
        assert_eq!(rt; used, 31);
        assert_eq!(rt; packet.cipher, 7);
        assert_eq!(rt; packet.salt, SALT);
        assert_eq!(rt; packet.count, 0x60);
        assert_eq!(rt; packet.wrapped.as_slice(), WRAPPED.as_slice());
    }
    Ok(())
}

fn is_bad(rt: &HostRuntime, octets: &[u8]) -> bool {
    matches!(read_tag3(rt.alloc(), octets), Err(PacketError::Bad))
}

#[test]
fn refuses_other_octets(rt: HostRuntime) {
    assert!(rt; is_bad(&rt, &PACKET[..30]), "cut");
    assert!(rt; is_bad(&rt, &PACKET[1..]), "no tag");
    for offset in [0, 1, 2, 4, 5] {
        let mut changed = PACKET;
        changed[offset] = 0xff;
        assert!(rt; is_bad(&rt, &changed), "another octet at {offset}");
    }
}
