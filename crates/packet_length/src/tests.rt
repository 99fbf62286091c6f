use crate::{
    LengthFault, MAX_LENGTH, no_packet_begins_another, read_length, read_packet, write_length,
};

// RFC 2440, 4.2.2.1 and 4.2.2.2: a length, its octets, and how many they are.
const LENGTHS: [(u16, [u8; 2], usize); 5] = [
    (0, [0x00, 0x00], 1),
    (191, [0xbf, 0x00], 1),
    (192, [0xc0, 0x00], 2),
    (1723, [0xc5, 0xfb], 2),
    (8383, [0xdf, 0xff], 2),
];

#[test]
fn writes_and_reads_lengths(rt: HostRuntime) {
    for (len, octets, used) in LENGTHS {
        if len <= MAX_LENGTH {
            assert_eq!(rt; write_length(len), (octets, used), "length {len}");
        }
        assert_eq!(rt;
            read_length(&octets),
            Ok((len as usize, used)),
            "length {len}"
        );
    }
}

#[test]
fn refuses_other_lengths(rt: HostRuntime) {
    assert_eq!(rt; read_length(&[]), Err(LengthFault::Cut));
    assert_eq!(rt; read_length(&[0xc0]), Err(LengthFault::Cut));
    assert_eq!(rt; read_length(&[0xe0]), Err(LengthFault::First(224)));
    assert_eq!(rt;
        read_length(&[0xff, 0, 0, 0, 0]),
        Err(LengthFault::First(255))
    );
}

#[test]
fn reads_the_frame_of_a_packet(rt: HostRuntime) {
    let octets = [0x8c, 2, 7, 8, 9];
    let found = read_packet(0x8c, &octets);
    assert!(rt; found.is_some());
    if let Some((body, used)) = found {
        assert_eq!(rt; body, [7, 8].as_slice());
        assert_eq!(rt; used, 4);
    }
    assert!(rt; read_packet(0xed, &octets).is_none());
    assert!(rt; read_packet(0x8c, &octets[..3]).is_none());
    no_packet_begins_another();
}
