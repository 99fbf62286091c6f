use crate::ImageKind::{Cut, Level, Magic, Order};
use crate::{ImageError, ImageFault, append_image, image_length, read_image, write_image};
use lower_tree::Kind;
use std::test::Fail;

/// A directory `a` with a file `b` in it that has an attribute of two octets and a body of three.
const FILE_IN_A_DIRECTORY: &[u8] =
    b"ECRYIMG1\0\0\0\x02\0\x01\0\x01a\0\x02\x01\x01b\x01\0\0\0\x02xy\0\0\0\x03abc";

#[test]
fn reads_and_writes_a_file_in_a_directory(rt: HostRuntime) -> Result<(), Fail> {
    let tree = read_image(rt.alloc(), FILE_IN_A_DIRECTORY)?;
    assert_eq!(rt; tree.nodes().len(), 3);
    let file = &tree.nodes()[2];
    assert_eq!(rt; file.parent, 1);
    assert_eq!(rt; file.kind, Kind::File);
    assert_eq!(rt; file.name.as_slice(), b"b".as_slice());
    assert_eq!(rt; file.attribute.as_ref().map(|a| a.len()), Some(2));
    assert_eq!(rt; file.body.as_slice(), b"abc".as_slice());
    assert_eq!(rt;
        write_image(rt.alloc(), &tree)?.as_slice(),
        FILE_IN_A_DIRECTORY
    );
    assert_eq!(rt; image_length(&tree), FILE_IN_A_DIRECTORY.len());
    Ok(())
}

#[test]
fn adds_an_image_behind_what_stands_there(rt: HostRuntime) -> Result<(), Fail> {
    let tree = read_image(rt.alloc(), b"ECRYIMG1\0\0\0\0")?;
    let mut out = Vec::from_slice(rt.alloc(), b"front ")?;
    append_image(rt.alloc(), &mut out, &tree)?;
    assert_eq!(rt; out.as_slice(), b"front ECRYIMG1\0\0\0\0".as_slice());
    Ok(())
}

#[test]
fn tells_the_first_fault(rt: HostRuntime) {
    for (octets, offset, kind) in [
        (b"ECRYIMG2\0\0\0\0".as_slice(), 0, Magic),
        (b"ECRYIMG1\0\0\0\x01\0\x02\0\x01a".as_slice(), 12, Level),
        (
            b"ECRYIMG1\0\0\0\x02\0\x01\0\x01b\0\x01\0\x01a".as_slice(),
            21,
            Order,
        ),
        (
            b"ECRYIMG1\0\0\0\x01\0\x01\x01\x01f\0\0\0\0\x02x".as_slice(),
            22,
            Cut,
        ),
    ] {
        let fault = ImageError::Fault(ImageFault { offset, kind });
        assert_eq!(rt; read_image(rt.alloc(), octets).err(), Some(fault));
    }
}
