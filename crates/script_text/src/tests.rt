use crate::{Op, OpError, read_op};
use std::alloc::Global;
use std::test::Fail;

fn op_of(alloc: Global, line: &[u8]) -> Result<Op, &'static str> {
    read_op(alloc, line).ok().ok_or("an operation")
}

#[test]
fn reads_an_operation(rt: HostRuntime) -> Result<(), Fail> {
    let alloc = rt.alloc();
    let Op::Rename(paths) = op_of(alloc, b"rename /a%20b /c/d")? else {
        return Err(Fail::from("a rename"));
    };
    let (first, _) = paths.old().split_first().ok_or("a name")?;
    let (last, _) = paths.new().split_last().ok_or("a name")?;
    assert_eq!(rt; (first, last), (b"a b".as_slice(), b"d".as_slice()));
    assert!(rt; matches!(read_op(alloc, b"unlink /f"), Ok(Op::Unlink(_))));
    assert!(rt; matches!(read_op(alloc, b"rmdir /f"), Ok(Op::Rmdir(_))));
    assert!(rt; matches!(read_op(alloc, b"stat /"), Ok(Op::Stat(_))));
    Ok(())
}

#[test]
fn reads_a_slot_and_a_path(rt: HostRuntime) -> Result<(), Fail> {
    let Op::Open(slot, path) = op_of(rt.alloc(), b"open 15 /a/b%20c")? else {
        return Err(Fail::from("an open"));
    };
    let (last, _) = path.parts().split_last().ok_or("a name")?;
    assert_eq!(rt; slot, 15);
    assert_eq!(rt; last, b"b c".as_slice());
    let Op::Create(slot, path) = op_of(rt.alloc(), b"create 0 /")? else {
        return Err(Fail::from("a create"));
    };
    assert_eq!(rt; slot, 0);
    assert!(rt; path.parts().split_last().is_none());
    Ok(())
}

#[test]
fn reads_numbers(rt: HostRuntime) -> Result<(), Fail> {
    let Op::Read(slot, offset, len) = op_of(rt.alloc(), b"read 9 1099511627775 65536")? else {
        return Err(Fail::from("a read"));
    };
    assert_eq!(rt; (slot, offset, len), (9, 1_099_511_627_775, 65_536));
    let Op::Truncate(slot, size) = op_of(rt.alloc(), b"truncate 10 1099511627775")? else {
        return Err(Fail::from("a truncation"));
    };
    assert_eq!(rt; (slot, size), (10, 1_099_511_627_775));
    assert!(rt; matches!(read_op(rt.alloc(), b"size 1"), Ok(Op::Size(1))));
    assert!(rt; matches!(read_op(rt.alloc(), b"sync 2"), Ok(Op::Sync(2))));
    assert!(rt; matches!(read_op(rt.alloc(), b"close 3"), Ok(Op::Close(3))));
    Ok(())
}

#[test]
fn reads_octets(rt: HostRuntime) -> Result<(), Fail> {
    let Op::Write(slot, offset, octets) = op_of(rt.alloc(), b"write 7 4096 00ff7a")? else {
        return Err(Fail::from("a write"));
    };
    assert_eq!(rt; (slot, offset), (7, 4096));
    assert_eq!(rt; octets.as_slice(), [0, 255, 122].as_slice());
    Ok(())
}

#[test]
fn reads_the_longest_write_and_none_longer(rt: HostRuntime) -> Result<(), Fail> {
    let mut line = Vec::new(rt.alloc());
    line.extend_from_slice(b"write 0 0 ")?;
    for _ in 0..65_536 {
        line.extend_from_slice(b"00")?;
    }
    assert!(rt; matches!(read_op(rt.alloc(), &line), Ok(Op::Write(..))));
    line.extend_from_slice(b"00")?;
    assert!(rt; matches!(read_op(rt.alloc(), &line), Err(OpError::Bad)));
    Ok(())
}

#[test]
fn refuses_other_lines(rt: HostRuntime) {
    for line in [
        b"".as_slice(),
        b"mkdir",
        b"mkdir ",
        b"mkdir /a ",
        b" mkdir /a",
        b"mkdir /a /b",
        b"rename /a",
        b"rename /a  /b",
        b"rename /a /b /c",
        b"seek 0",
    ] {
        assert!(rt; matches!(read_op(rt.alloc(), line), Err(OpError::Bad)));
    }
}

#[test]
fn refuses_other_lines_of_files(rt: HostRuntime) {
    for line in [
        b"open /a".as_slice(),
        b"open 16 /a",
        b"open 0",
        b"create 00 /a",
        b"create 0 /a /b",
        b"read 16 0 1",
        b"read 0 1099511627776 1",
        b"read 0 01 1",
        b"read 0 0 0",
        b"read 0 0 65537",
        b"read 0 0",
        b"read 0 0 1 ",
        b"read  0 0 1",
        b"write 0 1099511627776 00",
        b"write 0 0",
        b"write 0 0 ",
        b"write 0 0 0A",
        b"write 0 0 000",
        b"write 0 0 00 00",
        b"truncate 0 1099511627776",
        b"truncate 0",
        b"truncate 0 1 2",
        b"size 16",
        b"size",
        b"sync 0 0",
        b"sync -1",
        b"close  0",
        b"close 18446744073709551616",
    ] {
        assert!(rt; matches!(read_op(rt.alloc(), line), Err(OpError::Bad)));
    }
}
