use crate::{put_hex, put_line_end, put_name, put_number, put_path, put_space, put_word};
use std::test::Fail;
use tree_model::{Name, Path};

#[test]
fn a_line_of_each_field(rt: HostRuntime) -> Result<(), Fail> {
    let mut path = Path::root(rt.alloc());
    path.push(
        &Name::new(Vec::from_slice(rt.alloc(), b"b c")?)
            .ok()
            .expect(&rt, "a name"),
    )?;
    let mut out = Vec::new(rt.alloc());
    put_word(&mut out, "salt")?;
    put_space(&mut out)?;
    put_number(&mut out, u64::MAX)?;
    put_space(&mut out)?;
    put_hex(&mut out, &[0x00, 0x11, 0xab, 0xff])?;
    put_space(&mut out)?;
    put_name(&mut out, b"!~%\x01\x7f\xff")?;
    put_space(&mut out)?;
    put_path(&mut out, path.parts())?;
    put_line_end(&mut out)?;
    let line = "salt 18446744073709551615 0011abff !~%25%01%7f%ff /b%20c\n";
    assert_eq!(rt; out.as_slice(), line.as_bytes());
    Ok(())
}
