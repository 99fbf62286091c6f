use crate::report::{assert_shown, image_in};
use crate::run::{FAULTLESS, assert_front, assert_run, job_of_sessions, run};
use mount_run::OK;
use std::alloc::{AllocError, Global};
use std::process::Abort;
use std::test::Fail;

/// A file `f` without a body: the node 1.
const IMAGE: &[u8] = b"ECRYIMG1\x00\x00\x00\x01\x00\x01\x01\x01f\x00\x00\x00\x00\x00";

/// A job of two sessions that write an octet each at the same place, in the order of this schedule.
fn two_writers(alloc: Global, schedule: &[u32]) -> Result<Vec<u8>, AllocError> {
    let first = ["open 0 /f", "write 0 0 41", "close 0"];
    let second = ["open 0 /f", "write 0 0 42", "close 0"];
    job_of_sessions(alloc, "header", IMAGE, &[&first, &second], schedule)
}

/// The report of the two writers up to its image, with the log of the earlier write and of the later one.
fn front(alloc: Global, earlier: &str, later: &str) -> Result<String, AllocError> {
    format!(in alloc;
        "ecryptfs-report 1\n\
        session 0 3\nok 1\nok\nok\nsession 1 3\nok 1\nok\nok\n\
        tree 2\n0 0 0 0 resolve /f = ok 1\n1 0 0 0 resolve /f = ok 1\n\
        file 1 6\n0 0 0 0 attach 0 = ok\n1 0 0 0 attach 0 = ok\n{earlier}{later}\
        0 2 0 0 detach 0 = ok\n1 2 0 0 detach 0 = ok\nimage 12310\n"
    )
}

/// The replay of the two writers in this order is to tell this first, and to leave a file that is shown so.
fn assert_two_writers(
    rt: &impl Abort,
    alloc: Global,
    schedule: &[u32],
    front: &str,
    shown: &[u8],
) -> Result<(), Fail> {
    let (status, report) = run(alloc, "replay", two_writers(alloc, schedule)?)?;
    assert_eq!(rt; status, OK);
    assert!(rt; report.starts_with(front.as_bytes()));
    assert!(rt; report.ends_with(b"\nend\n"));
    assert_eq!(rt; image_in(&report).len(), 12_310);
    assert_shown(rt, alloc, "header", &report, shown)
}

// The later write stands, whichever session makes it.
#[test]
fn two_sessions_write_the_same_octet(rt: HostRuntime) -> Result<(), Fail> {
    let alloc = rt.alloc();
    let first = "0 1 0 0 write 0 0 41 = ok\n";
    let second = "1 1 0 0 write 0 0 42 = ok\n";
    let ordered = front(alloc, first, second)?;
    let shown = b"ecryptfs-show 1\nf 1 /f good 1 42\nend\n";
    assert_two_writers(&rt, alloc, &[0, 0, 1, 1, 0, 1], &ordered, shown)?;
    let reversed = front(alloc, second, first)?;
    let shown = b"ecryptfs-show 1\nf 1 /f good 1 41\nend\n";
    assert_two_writers(&rt, alloc, &[0, 0, 1, 1, 1, 0], &reversed, shown)
}

// One session has the file open, and the other one removes it.
#[test]
fn a_removed_file_is_read_and_written_on(rt: HostRuntime) -> Result<(), Fail> {
    let alloc = rt.alloc();
    let first = [
        "open 0 /f",
        "write 0 0 41",
        "read 0 0 9",
        "open 1 /f",
        "close 0",
    ];
    let second = ["unlink /f", "list /"];
    let schedule = [0, 0, 1, 0, 1];
    let octets = job_of_sessions(alloc, "header", IMAGE, &[&first, &second], &schedule)?;
    let wanted = b"ecryptfs-report 1\n\
        session 0 5\nok 1\nok\ndata 41\nerr notfound\nok\nsession 1 2\nok\nnames\n\
        tree 4\n0 0 0 0 resolve /f = ok 1\n1 0 0 0 unlink /f = ok\n\
        1 1 0 0 list / = names\n0 3 0 0 resolve /f = err notfound\n\
        file 1 4\n0 0 0 0 attach 0 = ok\n0 1 0 0 write 0 0 41 = ok\n\
        0 2 0 0 read 0 0 9 = data 41\n0 4 0 0 detach 0 = ok\n\
        image 12\nECRYIMG1\x00\x00\x00\x00\nend\n";
    assert_run(&rt, alloc, "replay", octets, FAULTLESS, OK, wanted)
}

#[test]
fn the_second_write_of_a_report_fails(rt: HostRuntime) -> Result<(), Fail> {
    let alloc = rt.alloc();
    let schedule = [0, 0, 1, 1, 0, 1];
    let (_, whole) = run(alloc, "replay", two_writers(alloc, &schedule)?)?;
    let octets = two_writers(alloc, &schedule)?;
    assert_front(&rt, alloc, octets, 2, &whole, 4096)
}
