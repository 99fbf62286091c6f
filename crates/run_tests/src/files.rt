use crate::report::{assert_shown, image_in};
use crate::run::{EMPTY_IMAGE, FAULTLESS, Failing, failing_run, job, job_with, run};
use lower_tree::LowerMaker;
use mount_run::{LOWER_FAULT, OK};
use std::alloc::{AllocError, Global};
use std::process::Abort;
use std::test::Fail;

/// Two files, which are the nodes 1 and 2: one is written over the edge of its extents, cut, and grows; each line that writes to a lower
/// file stands twice.
const SCRIPT: [&str; 16] = [
    "create 0 /f",
    "create 1 /g",
    "write 0 4094 41414141",
    "write 1 0 42",
    "sync 0",
    "sync 0",
    "truncate 0 4096",
    "truncate 0 9000",
    "write 0 8999 43",
    "close 0",
    "close 0",
    "sync 1",
    "sync 1",
    "write 1 1 44",
    "close 1",
    "close 1",
];

/// How many calls of the script change the first file: two extents, new metadata and the length; then two extents, the size and the
/// length.
const CHANGES: u64 = 8;

/// What is shown of the two files behind the script.
fn contents(alloc: Global) -> Result<Vec<u8>, AllocError> {
    let mut first = Vec::from_elem(alloc, 0u8, 4094)?;
    first.extend_from_slice(b"AA")?;
    first.resize(8999, 0)?;
    first.push(b'C')?;
    let mut text = Vec::from_slice(alloc, b"ecryptfs-show 1\nf 1 /f good 9000 ")?;
    text.extend_from_slice(hex::encode(alloc, &first)?.as_bytes())?;
    text.extend_from_slice(b"\nf 2 /g good 2 4244\nend\n")?;
    Ok(text)
}

/// How many lines of a report's replies are `err lower`.
fn faults_told(report: &[u8]) -> usize {
    report
        .split(|c| *c == b'\n')
        .filter(|line| *line == b"err lower".as_slice())
        .count()
}

/// The report of a replay that answers `OK`, where so many calls on the first file's stores fail.
fn replayed(
    rt: &impl Abort,
    alloc: Global,
    octets: Vec<u8>,
    failing: Failing,
    faults: u64,
) -> Result<Vec<u8>, Fail> {
    let (status, report, maker) = failing_run(alloc, "replay", octets, failing)?;
    assert_eq!(rt; status, OK);
    assert_eq!(rt; maker.tally(2), faults);
    Ok(report)
}

/// Where the change of this number fails, a line tells it, the next line does it, and the contents are to be those of the script.
fn assert_done_again(
    rt: &impl Abort,
    alloc: Global,
    meta: &str,
    number: u64,
    wanted: &[u8],
) -> Result<(), Fail> {
    let changes = [(1, number)];
    let failing = Failing {
        changes: &changes,
        ..FAULTLESS
    };
    let faults = if number <= CHANGES { 1 } else { 0 };
    let octets = job_with(alloc, meta, EMPTY_IMAGE, &SCRIPT)?;
    let report = replayed(rt, alloc, octets, failing, faults)?;
    assert_eq!(rt; faults_told(&report), faults as usize);
    assert_shown(rt, alloc, meta, &report, wanted)
}

#[test]
fn each_change_of_a_file_fails_in_turn(rt: HostRuntime) -> Result<(), Fail> {
    let alloc = rt.alloc();
    let wanted = contents(alloc)?;
    for number in 1..=CHANGES + 1 {
        assert_done_again(&rt, alloc, "header", number, &wanted)?;
        assert_done_again(&rt, alloc, "attribute", number, &wanted)?;
    }
    Ok(())
}

/// Where this read of its opening fails, the file `f` of an image is to be opened by the next line, and the image to stay as it is.
fn assert_opened_again(
    rt: &impl Abort,
    alloc: Global,
    number: u64,
    image: &[u8],
) -> Result<(), Fail> {
    let reads = [(1, number)];
    let failing = Failing {
        reads_of_bodies: &reads,
        ..FAULTLESS
    };
    let octets = job(alloc, image, &["open 0 /f", "open 0 /f", "read 0 5000 9"])?;
    let (status, report, _) = failing_run(alloc, "replay", octets, failing)?;
    let wanted = b"ecryptfs-report 1\nsession 0 4\nerr lower\nok 1\ndata 41\nok\ntree 2\n\
        0 0 0 0 resolve /f = ok 1\n0 1 0 0 resolve /f = ok 1\nfile 1 4\n\
        0 0 0 1 attach 0 = err lower\n0 1 1 1 attach 0 = ok\n0 2 1 1 read 0 5000 9 = data 41\n\
        0 3 1 1 detach 0 = ok\nimage ";
    assert_eq!(rt; status, OK);
    assert!(rt; report.starts_with(wanted));
    assert_eq!(rt; image_in(&report), image);
    Ok(())
}

#[test]
fn each_read_of_an_opening_fails_in_turn(rt: HostRuntime) -> Result<(), Fail> {
    let alloc = rt.alloc();
    let octets = job(alloc, EMPTY_IMAGE, &["create 0 /f", "write 0 5000 41"])?;
    let (_, made) = run(alloc, "replay", octets)?;
    for number in 1..=2 {
        assert_opened_again(&rt, alloc, number, image_in(&made))?;
    }
    Ok(())
}

// A close that failed is tried again, and does what was left.
#[test]
fn a_close_that_failed_is_tried_again(rt: HostRuntime) -> Result<(), Fail> {
    let alloc = rt.alloc();
    let failing = Failing {
        changes: &[(1, 3)],
        ..FAULTLESS
    };
    let lines = ["create 0 /f", "write 0 0 41", "close 0", "close 0"];
    let octets = job(alloc, EMPTY_IMAGE, &lines)?;
    let report = replayed(&rt, alloc, octets, failing, 1)?;
    let wanted = b"ecryptfs-report 1\nsession 0 4\nok 1\nok\nerr lower\nok\ntree 1\n\
        0 0 0 0 create /f = ok 1\nfile 1 4\n0 0 0 0 attach 0 = ok\n0 1 0 0 write 0 0 41 = ok\n\
        0 2 0 1 detach 0 = err lower\n0 3 1 1 detach 0 = ok\nimage ";
    assert!(rt; report.starts_with(wanted));
    let shown = b"ecryptfs-show 1\nf 1 /f good 1 41\nend\n";
    assert_shown(&rt, alloc, "header", &report, shown)
}

// The close at the end fails, and so does the write-out at the unmount.
#[test]
fn a_store_that_is_not_written_out(rt: HostRuntime) -> Result<(), Fail> {
    let alloc = rt.alloc();
    let failing = Failing {
        changes: &[(1, 1), (1, 2)],
        ..FAULTLESS
    };
    let octets = job(alloc, EMPTY_IMAGE, &["create 0 /f", "write 0 0 41"])?;
    let (status, report, maker) = failing_run(alloc, "replay", octets, failing)?;
    let wanted = b"ecryptfs-report 1\nsession 0 3\nok 1\nok\nerr lower\ntree 1\n\
        0 0 0 0 create /f = ok 1\nfile 1 3\n0 0 0 0 attach 0 = ok\n0 1 0 0 write 0 0 41 = ok\n\
        0 2 0 1 detach 0 = err lower\nstuck 2 1 2\n";
    assert_eq!(rt; status, LOWER_FAULT);
    assert_eq!(rt; report.as_slice(), wanted.as_slice());
    assert_eq!(rt; (maker.faults(), maker.tally(2), maker.tally(0)), (0, 2, 0));
    Ok(())
}
