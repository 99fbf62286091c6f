use crate::report::{Line, histories, job_of, report};
use crate::run::{EMPTY_IMAGE, FAULTLESS, Failing, failing_run, job, maker, run_over};
use lower_mem::MemMaker;
use lower_tree::LowerMaker;
use mount_run::{LOWER_FAULT, OK, READ_FAULT, WRITE_FAULT};
use std::alloc::{AllocError, Global};
use std::process::Abort;
use std::test::Fail;

/// A directory `d` with a file `f` that has an attribute, and the files `g` and `u`: the nodes 1 to 4.
const IMAGE: &[u8] = b"ECRYIMG1\x00\x00\x00\x04\x00\x01\x00\x01d\
    \x00\x02\x01\x01f\x01\x00\x00\x00\x02at\x00\x00\x00\x04body\
    \x00\x01\x01\x01g\x00\x00\x00\x00\x01g\x00\x01\x01\x01u\x00\x00\x00\x00\x00";

/// How often the names of that image are listed before the first line: once for the number of nodes, and each directory once.
const LISTS: u64 = 3;

/// Changes of that tree, and why each can't be done again.
const CHANGES: [Line; 9] = [
    ("mkdir /a", "err exists"),
    ("mkdir /a/b", "err exists"),
    ("rename /d/f /a/b/f", "err notfound"),
    ("rmdir /d", "err notfound"),
    ("rename /a/b /e", "err notfound"),
    ("mkdir /h", "err exists"),
    ("rename /e /h", "err notfound"),
    ("rename /h/f /g", "err notfound"),
    ("unlink /u", "err notfound"),
];

/// That tree behind the changes.
const CHANGED: &[u8] = b"ECRYIMG1\x00\x00\x00\x03\x00\x01\x00\x01a\
    \x00\x01\x01\x01g\x01\x00\x00\x00\x02at\x00\x00\x00\x04body\x00\x01\x00\x01h";

/// Twenty lines: each change twice, and two looks at the tree, which is the same whatever failed. Of the changes at these places the
/// first fails, and the second does it.
fn script(alloc: Global, failing: &[usize]) -> Result<Vec<Line<'static>>, AllocError> {
    let mut lines = Vec::new(alloc);
    for (place, (change, refusal)) in CHANGES.iter().enumerate() {
        if failing.contains(&place) {
            lines.push((*change, "err lower"))?;
            lines.push((*change, "ok"))?;
        } else {
            lines.push((*change, "ok"))?;
            lines.push((*change, *refusal))?;
        }
    }
    lines.push(("list /", "names d:a f:g d:h"))?;
    lines.push(("stat /g", "ok f 2"))?;
    Ok(lines)
}

/// What a run comes to.
#[derive(Clone, Copy)]
struct Outcome<'a> {
    status: u8,
    written: &'a [u8],
    /// How many calls of the maker failed.
    maker_faults: u64,
    /// How many calls on the names failed, by their tally. Those of the stores stay at 0.
    names_tally: u64,
}

fn assert_outcome(
    rt: &impl Abort,
    alloc: Global,
    word: &str,
    octets: Vec<u8>,
    failing: Failing,
    wanted: Outcome,
) -> Result<(), Fail> {
    let (status, written, maker) = failing_run(alloc, word, octets, failing)?;
    assert_eq!(rt; status, wanted.status);
    assert_eq!(rt; written.as_slice(), wanted.written);
    assert_eq!(rt; maker.faults(), wanted.maker_faults);
    assert_eq!(rt; maker.tally(0), wanted.names_tally);
    for part in 1..9 {
        assert_eq!(rt; maker.tally(part), 0);
    }
    Ok(())
}

// The first change on the names fails, and is done at the second line.
#[test]
fn a_line_that_fails_can_be_done_again(rt: HostRuntime) -> Result<(), Fail> {
    let alloc = rt.alloc();
    let octets = job(alloc, EMPTY_IMAGE, &["mkdir /a", "mkdir /a", "list /"])?;
    let failing = Failing {
        names: &[3],
        ..FAULTLESS
    };
    let wanted = Outcome {
        status: OK,
        written: b"ecryptfs-report 1\nsession 0 3\nerr lower\nok\nnames d:a\ntree 3\n\
            0 0 0 1 mkdir /a = err lower\n0 1 1 1 mkdir /a = ok\n0 2 1 1 list / = names d:a\n\
            image 17\nECRYIMG1\x00\x00\x00\x01\x00\x01\x00\x01a\nend\n",
        maker_faults: 0,
        names_tally: 1,
    };
    assert_outcome(&rt, alloc, "replay", octets, failing, wanted)
}

/// Replays the script, of whose calls on the names those fail that have these numbers: the first of the changes at these places.
fn assert_script(
    rt: &impl Abort,
    alloc: Global,
    names: &[u64],
    places: &[usize],
) -> Result<(), Fail> {
    let lines = script(alloc, places)?;
    let octets = job_of(alloc, IMAGE, &lines)?;
    let failing = Failing { names, ..FAULTLESS };
    let written = report(alloc, &lines, CHANGED)?;
    let wanted = Outcome {
        status: OK,
        written: &written,
        maker_faults: 0,
        names_tally: places.len() as u64,
    };
    assert_outcome(rt, alloc, "replay", octets, failing, wanted)
}

#[test]
fn each_change_fails_in_turn(rt: HostRuntime) -> Result<(), Fail> {
    for place in 0..CHANGES.len() {
        assert_script(&rt, rt.alloc(), &[LISTS + 1 + place as u64], &[place])?;
    }
    Ok(())
}

// Behind the lists, each change is made twice.
#[test]
fn all_changes_fail_in_one_run(rt: HostRuntime) -> Result<(), Fail> {
    let names = [4, 6, 8, 10, 12, 14, 16, 18, 20];
    assert_script(&rt, rt.alloc(), &names, &[0, 1, 2, 3, 4, 5, 6, 7, 8])
}

#[test]
fn a_call_that_is_not_made_does_not_fail(rt: HostRuntime) -> Result<(), Fail> {
    assert_script(&rt, rt.alloc(), &[0, LISTS + 10], &[])
}

#[test]
fn each_list_before_the_first_line_fails_in_turn(rt: HostRuntime) -> Result<(), Fail> {
    let alloc = rt.alloc();
    for call in 1..=LISTS {
        let octets = job(alloc, IMAGE, &["mkdir /a"])?;
        let failing = Failing {
            names: &[call],
            ..FAULTLESS
        };
        let wanted = Outcome {
            status: LOWER_FAULT,
            written: b"ecryptfs-report 1\nstuck 0 0 1\n",
            maker_faults: 0,
            names_tally: 1,
        };
        assert_outcome(&rt, alloc, "replay", octets, failing, wanted)?;
    }
    Ok(())
}

#[test]
fn the_split_fails(rt: HostRuntime) -> Result<(), Fail> {
    let alloc = rt.alloc();
    let octets = job(alloc, IMAGE, &["mkdir /a"])?;
    let failing = Failing {
        maker: &[1],
        ..FAULTLESS
    };
    let wanted = Outcome {
        status: LOWER_FAULT,
        written: b"ecryptfs-report 1\nstuck 9 0 1\n",
        maker_faults: 1,
        names_tally: 0,
    };
    assert_outcome(&rt, alloc, "replay", octets, failing, wanted)
}

/// The report that a fault of `unite` ends.
fn stuck_report(
    alloc: Global,
    lines: &[Line],
    before: u64,
    after: u64,
) -> Result<Vec<u8>, AllocError> {
    let mut octets = histories(alloc, lines)?;
    octets.extend_from_slice(format!(in alloc; "stuck 9 {before} {after}\n")?.as_bytes())?;
    Ok(octets)
}

// Behind a change that failed, too.
#[test]
fn the_unite_fails(rt: HostRuntime) -> Result<(), Fail> {
    let alloc = rt.alloc();
    let lines = script(alloc, &[0])?;
    let octets = job_of(alloc, IMAGE, &lines)?;
    let failing = Failing {
        maker: &[2],
        names: &[LISTS + 1],
        ..FAULTLESS
    };
    let written = stuck_report(alloc, &lines, 0, 1)?;
    let wanted = Outcome {
        status: LOWER_FAULT,
        written: &written,
        maker_faults: 1,
        names_tally: 1,
    };
    assert_outcome(&rt, alloc, "replay", octets, failing, wanted)
}

/// The replay of a list over a maker whose calls may have failed before is to end in a fault of a lower part, and to write this.
fn assert_fault(
    rt: &impl Abort,
    alloc: Global,
    lower: &mut MemMaker,
    wanted: &[u8],
) -> Result<(), Fail> {
    let octets = job(alloc, EMPTY_IMAGE, &["list /"])?;
    let (status, written) = run_over(alloc, lower, &["replay"], octets, FAULTLESS)?;
    assert_eq!(rt; status, LOWER_FAULT);
    assert_eq!(rt; written.as_slice(), wanted);
    Ok(())
}

// The unite of the first run, the split of the second, and the unite of the third.
#[test]
fn one_maker_fails_in_three_runs(rt: HostRuntime) -> Result<(), Fail> {
    let alloc = rt.alloc();
    let failing = Failing {
        maker: &[2, 3, 5],
        ..FAULTLESS
    };
    let mut lower = maker(alloc, failing)?;
    let lines = [("list /", "names")];
    assert_fault(&rt, alloc, &mut lower, &stuck_report(alloc, &lines, 0, 1)?)?;
    assert_fault(&rt, alloc, &mut lower, b"ecryptfs-report 1\nstuck 9 1 2\n")?;
    assert_fault(&rt, alloc, &mut lower, &stuck_report(alloc, &lines, 2, 3)?)
}

#[test]
fn show_makes_no_lower_call(rt: HostRuntime) -> Result<(), Fail> {
    let alloc = rt.alloc();
    let octets = job(alloc, IMAGE, &["mkdir /a"])?;
    let failing = Failing {
        maker: &[1],
        names: &[1],
        ..FAULTLESS
    };
    let wanted = Outcome {
        status: OK,
        written: b"ecryptfs-show 1\nd 1 /d\nf 2 /d/f bad short 2\nf 3 /g bad short 1\nf 4 /u empty\nend\n",
        maker_faults: 0,
        names_tally: 0,
    };
    assert_outcome(&rt, alloc, "show", octets, failing, wanted)
}

#[test]
fn no_lower_call_is_made_behind_a_read_that_fails(rt: HostRuntime) -> Result<(), Fail> {
    let alloc = rt.alloc();
    let octets = job(alloc, IMAGE, &["mkdir /a"])?;
    let failing = Failing {
        reads: &[2],
        maker: &[1],
        ..FAULTLESS
    };
    let wanted = Outcome {
        status: READ_FAULT,
        written: b"",
        maker_faults: 0,
        names_tally: 0,
    };
    assert_outcome(&rt, alloc, "replay", octets, failing, wanted)
}

#[test]
fn a_write_fails_behind_a_lower_fault(rt: HostRuntime) -> Result<(), Fail> {
    let alloc = rt.alloc();
    let octets = job(alloc, IMAGE, &["mkdir /a"])?;
    let failing = Failing {
        writes: &[1],
        maker: &[1],
        ..FAULTLESS
    };
    let wanted = Outcome {
        status: WRITE_FAULT,
        written: b"",
        maker_faults: 1,
        names_tally: 0,
    };
    assert_outcome(&rt, alloc, "replay", octets, failing, wanted)
}
