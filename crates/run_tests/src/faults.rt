use crate::run::{
    EMPTY_IMAGE, FAULTLESS, Failing, assert_front, assert_run, job, maker, run, run_over,
};
use mount_run::{
    BAD_JOB, LOWER_FAULT, MEMORY, OK, READ_FAULT, TOO_LONG, USAGE, WRITE_FAULT, status_name,
};
use std::alloc::Global;
use std::process::Abort;
use std::test::Fail;

#[test]
fn a_read_that_fails_in_mid_stream(rt: HostRuntime) -> Result<(), Fail> {
    let alloc = rt.alloc();
    let lines = ["list /"; 600];
    for call in 1..4 {
        let octets = job(alloc, EMPTY_IMAGE, &lines)?;
        let failing = Failing {
            reads: &[call],
            ..FAULTLESS
        };
        assert_run(&rt, alloc, "replay", octets, failing, READ_FAULT, b"")?;
    }
    Ok(())
}

#[test]
fn a_write_that_fails_leaves_a_front(rt: HostRuntime) -> Result<(), Fail> {
    let alloc = rt.alloc();
    let lines = ["list /"; 300];
    let (_, whole) = run(alloc, "replay", job(alloc, EMPTY_IMAGE, &lines)?)?;
    for (write, len) in [(1, 0), (2, 4096), (3, 8192)] {
        let octets = job(alloc, EMPTY_IMAGE, &lines)?;
        assert_front(&rt, alloc, octets, write, &whole, len)?;
    }
    Ok(())
}

/// Octets that are no job are to be answered with this text.
fn assert_bad_job(rt: &impl Abort, alloc: Global, octets: &[u8], wanted: &str) -> Result<(), Fail> {
    for word in ["replay", "show"] {
        let octets = octets.to_vec(alloc)?;
        assert_run(
            rt,
            alloc,
            word,
            octets,
            FAULTLESS,
            BAD_JOB,
            wanted.as_bytes(),
        )?;
    }
    Ok(())
}

// The last but one ends behind the first line, and the last has a passphrase of no octets.
#[test]
fn octets_that_are_no_job(rt: HostRuntime) -> Result<(), Fail> {
    let alloc = rt.alloc();
    assert_bad_job(&rt, alloc, b"", "badjob 0\n")?;
    assert_bad_job(&rt, alloc, b"ecryptfs-job 2\n", "badjob 0\n")?;
    assert_bad_job(&rt, alloc, b"ecryptfs-job 1\n", "badjob 15\n")?;
    assert_bad_job(&rt, alloc, b"ecryptfs-job 1\npassphrase \n", "badjob 15\n")
}

#[test]
fn a_write_fails_behind_octets_that_are_no_job(rt: HostRuntime) -> Result<(), Fail> {
    let alloc = rt.alloc();
    let failing = Failing {
        writes: &[1],
        ..FAULTLESS
    };
    assert_run(
        &rt,
        alloc,
        "replay",
        Vec::new(alloc),
        failing,
        WRITE_FAULT,
        b"",
    )
}

/// These words are to be refused, whatever is read.
fn assert_usage(rt: &impl Abort, alloc: Global, words: &[&str]) -> Result<(), Fail> {
    let mut lower = maker(alloc, FAULTLESS)?;
    let octets = job(alloc, EMPTY_IMAGE, &[])?;
    let (status, written) = run_over(alloc, &mut lower, words, octets, FAULTLESS)?;
    assert_eq!(rt; status, USAGE);
    assert!(rt; written.is_empty());
    Ok(())
}

#[test]
fn words_that_are_no_command(rt: HostRuntime) -> Result<(), Fail> {
    let table: [&[&str]; 20] = [
        &[],
        &[""],
        &["Replay"],
        &["replay "],
        &["mount"],
        &["shows"],
        &["--help"],
        &["--"],
        &["--", "replay"],
        &["replay", "replay"],
        &["replay", "1"],
        &["make"],
        &["make", ""],
        &["make", "0"],
        &["make", "01"],
        &["make", "1001"],
        &["make", "18446744073709551617"],
        &["make", "-1"],
        &["make", "1 "],
        &["make", "1", "1"],
    ];
    for words in table {
        assert_usage(&rt, rt.alloc(), words)?;
    }
    Ok(())
}

#[test]
fn the_numbers_of_the_statuses(rt: HostRuntime) {
    let numbers = [
        OK,
        MEMORY,
        USAGE,
        BAD_JOB,
        READ_FAULT,
        WRITE_FAULT,
        LOWER_FAULT,
        TOO_LONG,
    ];
    assert_eq!(rt; numbers, [0, 1, 2, 3, 4, 5, 6, 7]);
    assert_eq!(rt; status_name(8), "unknown");
}
