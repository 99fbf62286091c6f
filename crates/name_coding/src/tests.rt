use crate::{CodingError, CodingFault, coded_octets_are_read_again, decode, encode};
use std::test::Fail;

#[test]
fn codes_octets_as_letters(rt: HostRuntime) -> Result<(), Fail> {
    let alloc = rt.alloc();
    assert_eq!(rt; encode(alloc, &[0x46])?.as_slice(), b"FU--".as_slice());
    assert_eq!(rt; encode(alloc, &[0; 3])?.as_slice(), b"----".as_slice());
    assert_eq!(rt; encode(alloc, &[0xff; 3])?.as_slice(), b"zzzz".as_slice());
    assert_eq!(rt;
        encode(alloc, &[0x00, 0x11, 0x22, 0xee, 0xff])?.as_slice(),
        b"-.2Wvjw-".as_slice()
    );
    assert_eq!(rt; encode(alloc, &[])?.as_slice(), b"".as_slice());
    coded_octets_are_read_again();
    Ok(())
}

#[test]
fn reads_letters(rt: HostRuntime) -> Result<(), Fail> {
    let alloc = rt.alloc();
    assert_eq!(rt; decode(alloc, b"FU--")?.as_slice(), [0x46, 0, 0].as_slice());
    assert_eq!(rt;
        decode(alloc, b"0000")?.as_slice(),
        [0x08, 0x20, 0x82].as_slice()
    );
    assert_eq!(rt; decode(alloc, b"")?.as_slice(), b"".as_slice());
    Ok(())
}

#[test]
fn refuses_other_letters(rt: HostRuntime) {
    let refused: [(&[u8], CodingFault); 4] = [
        (b"abc", CodingFault::Length(3)),
        (b"F!", CodingFault::Length(2)),
        (b"FU-!", CodingFault::Letter(3, 0x21)),
        (b"F_-!", CodingFault::Letter(1, 0x5f)),
    ];
    for (letters, fault) in refused {
        assert!(rt;
            matches!(decode(rt.alloc(), letters), Err(CodingError::Fault(f)) if f == fault)
        );
    }
}
