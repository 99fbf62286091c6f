use crate::run::{FAULTLESS, Failing, maker, run_over};
use lower_mem::MemMaker;
use lower_tree::LowerMaker;
use mount_run::{LOWER_FAULT, OK};
use std::alloc::{AllocError, Global};
use std::process::Abort;
use std::test::Fail;

/// What a `make` of this number answers and writes over a maker whose calls fail so, and the maker behind it. Its source has nothing.
fn make(
    alloc: Global,
    number: &str,
    failing: Failing,
) -> Result<(u8, Vec<u8>, MemMaker), AllocError> {
    let mut lower = maker(alloc, failing)?;
    let none = Vec::new(alloc);
    let (status, written) = run_over(alloc, &mut lower, &["make", number], none, failing)?;
    Ok((status, written, lower))
}

/// The make of this number, which reads nothing, so that no read fails, is to write this.
fn assert_make(rt: &impl Abort, alloc: Global, number: &str, wanted: &str) -> Result<(), Fail> {
    let failing = Failing {
        reads: &[1],
        ..FAULTLESS
    };
    let (status, text, lower) = make(alloc, number, failing)?;
    assert_eq!(rt; status, OK);
    assert_eq!(rt; text.as_slice(), wanted.as_bytes());
    assert_eq!(rt; lower.faults(), 0);
    Ok(())
}

// The texts were made by another implementation, with Python and OpenSSL: metadata in attributes, and at the heads of bodies.
#[test]
fn a_make_sums_up_two_replays(rt: HostRuntime) -> Result<(), Fail> {
    let alloc = rt.alloc();
    let least = "ecryptfs-make 1\nnumber 1\nimage 3043148\nreport 3966854\n\
        sha256 bc8ea0cc2ba9a51c8299e51b42b8be1160f37c0aac28c15f44da6e95880767b5\nend\n";
    assert_make(&rt, alloc, "1", least)?;
    let greatest = "ecryptfs-make 1\nnumber 1000\nimage 3729932\nreport 4360574\n\
        sha256 7252236ad5801e2c4ae861bb06e3db24d664b5ee946d3fddf8eeaba6ba459131\nend\n";
    assert_make(&rt, alloc, "1000", greatest)
}

#[test]
fn the_first_lower_call_of_a_make_fails(rt: HostRuntime) -> Result<(), Fail> {
    let alloc = rt.alloc();
    let names = Failing {
        names: &[1],
        ..FAULTLESS
    };
    let (status, text, lower) = make(alloc, "1", names)?;
    assert_eq!(rt; status, LOWER_FAULT);
    assert_eq!(rt;
        text.as_slice(),
        b"ecryptfs-report 1\nstuck 0 0 1\n".as_slice()
    );
    assert_eq!(rt; (lower.faults(), lower.tally(0)), (0, 1));
    Ok(())
}

/// Where this call of its maker fails, the make of 1 is to write this first, and the fault last.
fn assert_stuck(rt: &impl Abort, alloc: Global, call: u64, front: &str) -> Result<(), Fail> {
    let failing = Failing {
        maker: &[call],
        ..FAULTLESS
    };
    let (status, text, lower) = make(alloc, "1", failing)?;
    assert_eq!(rt; status, LOWER_FAULT);
    assert!(rt; text.starts_with(front.as_bytes()));
    assert!(rt; text.ends_with(b"\nstuck 9 0 1\n"));
    assert_eq!(rt; (lower.faults(), lower.tally(0)), (1, 0));
    Ok(())
}

// The calls of the maker are the split and the unite of the first replay, and those of the second one. The first replay has one session
// of 876 operations, and the second has four of 300.
#[test]
fn each_call_of_a_makes_maker_fails_in_turn(rt: HostRuntime) -> Result<(), Fail> {
    let alloc = rt.alloc();
    assert_stuck(&rt, alloc, 1, "ecryptfs-report 1\nstuck 9 0 1\n")?;
    assert_stuck(&rt, alloc, 2, "ecryptfs-report 1\nsession 0 876\nok\nok\n")?;
    assert_stuck(&rt, alloc, 3, "ecryptfs-report 1\nstuck 9 0 1\n")?;
    assert_stuck(&rt, alloc, 4, "ecryptfs-report 1\nsession 0 300\nok ")
}
