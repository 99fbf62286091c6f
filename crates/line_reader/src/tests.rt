use super::*;
use std::test::Fail;

#[test]
fn numbers(rt: HostRuntime) {
    for (text, number, saturated) in [
        (b"0".as_slice(), Some(0), Some(0)),
        (
            b"18446744073709551615".as_slice(),
            Some(u64::MAX),
            Some(u64::MAX),
        ),
        (b"18446744073709551616".as_slice(), None, Some(u64::MAX)),
        (b"01".as_slice(), None, None),
    ] {
        assert_eq!(rt; read_number(text), number);
        assert_eq!(rt; read_saturated(text), saturated);
    }
}

#[test]
fn octets_names_and_paths(rt: HostRuntime) -> Result<(), Fail> {
    let octets = read_hex(rt.alloc(), b"007fabff")?.ok_or("four octets")?;
    assert_eq!(rt; octets.as_slice(), [0, 127, 171, 255].as_slice());
    assert_eq!(rt; read_hex_array::<2>(b"12ef"), Some([18, 239]));
    let name = read_name(rt.alloc(), b"a%20%25%0a%ff~")?.ok_or("a name")?;
    assert_eq!(rt; name.octets(), b"a %\n\xff~".as_slice());
    let path = read_path(rt.alloc(), b"/a/b%20c")?.ok_or("a path of two names")?;
    let (last, _) = path.parts().split_last().ok_or("a last name")?;
    assert_eq!(rt; last, b"b c".as_slice());
    let plain = read_path(rt.alloc(), b"/a/..b/c")?.ok_or("a path of three names")?;
    assert_eq!(rt; plain.parts().octets(), b"/a/..b/c".as_slice());
    let root = read_path(rt.alloc(), b"/")?.ok_or("the path of the root")?;
    assert!(rt; root.parts().is_empty());
    for text in [
        b"/a/../b".as_slice(),
        b"//".as_slice(),
        b"/a/".as_slice(),
        b"a/b".as_slice(),
        b"/a/./b%20c".as_slice(),
    ] {
        assert!(rt; read_path(rt.alloc(), text)?.is_none());
    }
    Ok(())
}

#[test]
fn lines(rt: HostRuntime) {
    let first = first_line(b"end\nmore\n");
    assert_eq!(rt; first, Some((b"end".as_slice(), b"more\n".as_slice())));
    assert_eq!(rt;
        cut_at(b' ', b"a b c"),
        Some((b"a".as_slice(), b"b c".as_slice()))
    );
}
