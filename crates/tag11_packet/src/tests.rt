use crate::{PacketError, Tag11, read_tag11, write_tag11};
use std::test::Fail;

const SIGNATURE: [u8; 8] = [1, 2, 3, 4, 5, 6, 7, 8];

const PACKET: [u8; 24] = [
    0xed, 0x16, 0x62, 0x08, 0x5f, 0x43, 0x4f, 0x4e, 0x53, 0x4f, 0x4c, 0x45, 0x00, 0x00, 0x00, 0x00,
    0x01, 0x02, 0x03, 0x04, 0x05, 0x06, 0x07, 0x08,
];

#[test]
fn writes_a_packet(rt: HostRuntime) -> Result<(), Fail> {
    let octets = write_tag11(
        rt.alloc(),
        &Tag11 {
            signature: SIGNATURE,
        },
    )?;
    assert_eq!(rt; octets.as_slice(), PACKET.as_slice());
    Ok(())
}

#[test]
fn reads_a_packet(rt: HostRuntime) {
    assert_eq!(rt;
        read_tag11(&PACKET),
        Ok((
            Tag11 {
                signature: SIGNATURE
            },
            24
        ))
    );
}

// A packet with no name, another format and a date.
#[test]
fn skips_fields(rt: HostRuntime) {
    let octets = [0xed, 14, 0x74, 0, 1, 2, 3, 4, 1, 2, 3, 4, 5, 6, 7, 8, 9];
    assert_eq!(rt;
        read_tag11(&octets),
        Ok((
            Tag11 {
                signature: SIGNATURE
            },
            16
        ))
    );
}

#[test]
fn refuses_other_octets(rt: HostRuntime) {
    assert_eq!(rt; read_tag11(&PACKET[..23]), Err(PacketError::Bad));
    assert_eq!(rt; read_tag11(&PACKET[1..]), Err(PacketError::Bad));
    for offset in [0, 1, 3] {
        let mut changed = PACKET;
        changed[offset] = 0x17;
        assert_eq!(rt;
            read_tag11(&changed),
            Err(PacketError::Bad),
            "another octet at {offset}"
        );
    }
}
