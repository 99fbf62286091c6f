use crate::report::assert_replies;
use crate::run::{EMPTY_IMAGE, FAULTLESS, assert_run, job, run};
use mount_run::{BAD_JOB, OK};
use std::alloc::{AllocError, Global};
use std::test::Fail;

/// A directory `d` with a file `x` that has an attribute, an empty directory `e`, and a file `f`: the nodes 1 to 4.
const SMALL_IMAGE: &[u8] = b"ECRYIMG1\x00\x00\x00\x04\x00\x01\x00\x01d\
    \x00\x02\x01\x01x\x01\x00\x00\x00\x02at\x00\x00\x00\x04body\
    \x00\x01\x00\x01e\x00\x01\x01\x01f\x00\x00\x00\x00\x01f";

#[test]
fn the_report_of_no_operations(rt: HostRuntime) -> Result<(), Fail> {
    let alloc = rt.alloc();
    let octets = job(alloc, EMPTY_IMAGE, &[])?;
    let wanted =
        b"ecryptfs-report 1\nsession 0 0\ntree 0\nimage 12\nECRYIMG1\x00\x00\x00\x00\nend\n";
    assert_run(&rt, alloc, "replay", octets, FAULTLESS, OK, wanted)
}

#[test]
fn the_report_of_a_new_directory(rt: HostRuntime) -> Result<(), Fail> {
    let alloc = rt.alloc();
    let octets = job(alloc, EMPTY_IMAGE, &["mkdir /a", "list /"])?;
    let wanted = b"ecryptfs-report 1\nsession 0 2\nok\nnames d:a\ntree 2\n\
        0 0 0 0 mkdir /a = ok\n0 1 0 0 list / = names d:a\n\
        image 17\nECRYIMG1\x00\x00\x00\x01\x00\x01\x00\x01a\nend\n";
    assert_run(&rt, alloc, "replay", octets, FAULTLESS, OK, wanted)
}

// The image has a file `f` with an attribute and a body, which is carried along.
#[test]
fn the_report_of_each_reply(rt: HostRuntime) -> Result<(), Fail> {
    let alloc = rt.alloc();
    let image =
        b"ECRYIMG1\x00\x00\x00\x01\x00\x01\x01\x01f\x01\x00\x00\x00\x02at\x00\x00\x00\x04body";
    let lines = [
        "mkdir /a",
        "mkdir /a/b%20%ff",
        "mkdir /a",
        "list /a",
        "list /",
        "list /x",
        "mkdir /f/x",
        "mkdir /",
        "list /a/b%20%ff",
    ];
    let octets = job(alloc, image, &lines)?;
    let wanted = b"ecryptfs-report 1\nsession 0 9\n\
        ok\nok\nerr exists\nnames d:b%20%ff\nnames d:a f:f\nerr notfound\nerr notdir\nerr isroot\nnames\ntree 9\n\
        0 0 0 0 mkdir /a = ok\n0 1 0 0 mkdir /a/b%20%ff = ok\n0 2 0 0 mkdir /a = err exists\n\
        0 3 0 0 list /a = names d:b%20%ff\n0 4 0 0 list / = names d:a f:f\n0 5 0 0 list /x = err notfound\n\
        0 6 0 0 mkdir /f/x = err notdir\n0 7 0 0 mkdir / = err isroot\n0 8 0 0 list /a/b%20%ff = names\n\
        image 44\nECRYIMG1\x00\x00\x00\x03\x00\x01\x00\x01a\x00\x02\x00\x03b \xff\
        \x00\x01\x01\x01f\x01\x00\x00\x00\x02at\x00\x00\x00\x04body\nend\n";
    assert_run(&rt, alloc, "replay", octets, FAULTLESS, OK, wanted)
}

// With the first test that fails where several do.
#[test]
fn each_refusal_of_each_call(rt: HostRuntime) -> Result<(), Fail> {
    let lines = [
        ("mkdir /n/o", "err notfound"),
        ("mkdir /f/o", "err notdir"),
        ("mkdir /f/o/p", "err notdir"),
        ("mkdir /", "err isroot"),
        ("mkdir /d", "err exists"),
        ("mkdir /f", "err exists"),
        ("rmdir /n", "err notfound"),
        ("rmdir /f", "err notdir"),
        ("rmdir /f/n", "err notdir"),
        ("rmdir /", "err isroot"),
        ("rmdir /d", "err notempty"),
        ("unlink /n", "err notfound"),
        ("unlink /f/n", "err notdir"),
        ("unlink /d", "err isdir"),
        ("unlink /", "err isdir"),
        ("list /n", "err notfound"),
        ("list /f", "err notdir"),
        ("list /f/n", "err notdir"),
        ("stat /n", "err notfound"),
        ("stat /f/n", "err notdir"),
    ];
    assert_replies(&rt, rt.alloc(), SMALL_IMAGE, &lines, SMALL_IMAGE)
}

#[test]
fn each_refusal_of_rename(rt: HostRuntime) -> Result<(), Fail> {
    let lines = [
        ("rename /n /o", "err notfound"),
        ("rename /f /n/o", "err notfound"),
        ("rename /n /f/o/p", "err notfound"),
        ("rename /f/n /o", "err notdir"),
        ("rename /f/n /o/p", "err notdir"),
        ("rename /e /f/n", "err notdir"),
        ("rename /d /f", "err notdir"),
        ("rename /d /d/x", "err notdir"),
        ("rename / /f", "err notdir"),
        ("rename / /n", "err isroot"),
        ("rename / /d", "err isroot"),
        ("rename /f /", "err isroot"),
        ("rename /e /", "err isroot"),
        ("rename /f /e", "err isdir"),
        ("rename /d/x /d", "err isdir"),
        ("rename /d /d/n", "err inside"),
        ("rename /e /e/n", "err inside"),
        ("rename /e /d", "err notempty"),
    ];
    assert_replies(&rt, rt.alloc(), SMALL_IMAGE, &lines, SMALL_IMAGE)
}

// To where they are, onto empty directories and other files, into other directories and to other names.
#[test]
fn entries_are_moved(rt: HostRuntime) -> Result<(), Fail> {
    let lines = [
        ("rename /d /d", "ok"),
        ("rename /f /f", "ok"),
        ("rename /e /e", "ok"),
        ("list /d", "names f:x"),
        ("rename /d /e", "ok"),
        ("list /", "names d:e f:f"),
        ("stat /e/x", "ok f 2"),
        ("rename /f /e/x", "ok"),
        ("stat /e/x", "ok f 4"),
        ("rename /e/x /g", "ok"),
        ("mkdir /h", "ok"),
        ("rename /g /h", "err isdir"),
        ("rename /h /g", "err notdir"),
        ("rename /h /e/h", "ok"),
        ("rename /e /e/h", "err inside"),
        ("rename /e/h /e", "err notempty"),
        ("rename /e /b", "ok"),
        ("stat /e", "err notfound"),
        ("stat /b/h", "ok d 5"),
        ("list /b", "names d:h"),
    ];
    let behind = b"ECRYIMG1\x00\x00\x00\x03\x00\x01\x00\x01b\x00\x02\x00\x01h\
        \x00\x01\x01\x01g\x00\x00\x00\x00\x01f";
    assert_replies(&rt, rt.alloc(), SMALL_IMAGE, &lines, behind)
}

#[test]
fn a_directory_onto_itself_and_onto_another(rt: HostRuntime) -> Result<(), Fail> {
    let image = b"ECRYIMG1\x00\x00\x00\x02\x00\x01\x00\x01a\x00\x01\x00\x01b";
    let lines = [
        ("rename /a /a/x", "err inside"),
        ("rename /a /a", "ok"),
        ("rename /a /b", "ok"),
        ("rename /b /b", "ok"),
        ("rmdir /", "err isroot"),
        ("unlink /", "err isdir"),
    ];
    let behind = b"ECRYIMG1\x00\x00\x00\x01\x00\x01\x00\x01b";
    assert_replies(&rt, rt.alloc(), image, &lines, behind)
}

// A file is removed, and the directory that it was in; numbers of nodes don't come back.
#[test]
fn entries_are_removed(rt: HostRuntime) -> Result<(), Fail> {
    let lines = [
        ("unlink /d/x", "ok"),
        ("list /d", "names"),
        ("rmdir /d", "ok"),
        ("rmdir /e", "ok"),
        ("unlink /f", "ok"),
        ("list /", "names"),
        ("mkdir /d", "ok"),
        ("stat /d", "ok d 5"),
    ];
    let behind = b"ECRYIMG1\x00\x00\x00\x01\x00\x01\x00\x01d";
    assert_replies(&rt, rt.alloc(), SMALL_IMAGE, &lines, behind)
}

/// The line that makes a directory whose name has so many letters `n`.
fn mkdir_of_length(alloc: Global, len: usize) -> Result<String, AllocError> {
    let mut line = String::from_str(alloc, "mkdir /")?;
    for _ in 0..len {
        line.push('n')?;
    }
    Ok(line)
}

// No line has a name of more than 255 octets.
#[test]
fn the_longest_name(rt: HostRuntime) -> Result<(), Fail> {
    let alloc = rt.alloc();
    let line = mkdir_of_length(alloc, 255)?;
    let mut behind = Vec::from_slice(alloc, b"ECRYIMG1\x00\x00\x00\x01\x00\x01\x00\xff")?;
    behind.resize(behind.len() + 255, b'n')?;
    assert_replies(&rt, alloc, EMPTY_IMAGE, &[(&line, "ok")], &behind)
}

#[test]
fn a_name_that_is_too_long(rt: HostRuntime) -> Result<(), Fail> {
    let alloc = rt.alloc();
    let line = mkdir_of_length(alloc, 256)?;
    let (status, _) = run(alloc, "replay", job(alloc, EMPTY_IMAGE, &[&line])?)?;
    assert_eq!(rt; status, BAD_JOB);
    Ok(())
}

/// Adds a directory at this level to an image.
fn put_directory(image: &mut Vec<u8>, level: u16, name: &str) -> Result<(), AllocError> {
    image.extend_from_slice(&level.to_be_bytes())?;
    image.extend_from_slice(&[0, name.len().min(255) as u8])?;
    image.extend_from_slice(name.as_bytes())
}

/// The path of so many parts `d`.
fn deep_path(alloc: Global, levels: usize) -> Result<String, AllocError> {
    let mut path = String::new(alloc);
    for _ in 0..levels {
        path.push_str("/d")?;
    }
    Ok(path)
}

/// The front of an image of as many directories as there are nodes: so many, each in the one before.
fn deep_image(alloc: Global, levels: u16) -> Result<Vec<u8>, AllocError> {
    let mut image = Vec::from_slice(alloc, b"ECRYIMG1\x00\x00\x0f\xff")?;
    for level in 1..=levels {
        put_directory(&mut image, level, "d")?;
    }
    Ok(image)
}

// Each directory in the one before; no more can be made.
#[test]
fn as_many_levels_as_there_are_nodes(rt: HostRuntime) -> Result<(), Fail> {
    let alloc = rt.alloc();
    let image = deep_image(alloc, 4095)?;
    let lowest = deep_path(alloc, 4095)?;
    let mkdir = format!(in alloc; "mkdir {lowest}/e")?;
    let stat = format!(in alloc; "stat {lowest}")?;
    let list = format!(in alloc; "list {lowest}")?;
    let inside = format!(in alloc; "rename /d {lowest}/e")?;
    let lines = [
        ("mkdir /e", "err nonodes"),
        (mkdir.as_str(), "err nonodes"),
        (stat.as_str(), "ok d 4095"),
        (list.as_str(), "names"),
        (inside.as_str(), "err inside"),
    ];
    assert_replies(&rt, alloc, &image, &lines, &image)
}

#[test]
fn the_lowest_level_is_moved_to_the_root(rt: HostRuntime) -> Result<(), Fail> {
    let alloc = rt.alloc();
    let mut behind = deep_image(alloc, 4094)?;
    put_directory(&mut behind, 1, "e")?;
    let lowest = deep_path(alloc, 4095)?;
    let outside = format!(in alloc; "rename {lowest} /e")?;
    let lines = [(outside.as_str(), "ok"), ("list /", "names d:d d:e")];
    assert_replies(&rt, alloc, &deep_image(alloc, 4095)?, &lines, &behind)
}

#[test]
fn the_lowest_level_is_shown(rt: HostRuntime) -> Result<(), Fail> {
    let alloc = rt.alloc();
    let image = deep_image(alloc, 4095)?;
    let (status, text) = run(alloc, "show", job(alloc, &image, &[])?)?;
    assert_eq!(rt; status, OK);
    let lowest = deep_path(alloc, 4095)?;
    let last = format!(in alloc; "d 4095 {lowest}\nend\n")?;
    assert!(rt; text.ends_with(last.as_bytes()));
    Ok(())
}

// All directories in the root; no more can be made, also where one is removed.
#[test]
fn as_many_names_as_there_are_nodes(rt: HostRuntime) -> Result<(), Fail> {
    let alloc = rt.alloc();
    let mut image = Vec::from_slice(alloc, b"ECRYIMG1\x00\x00\x0f\xff")?;
    let mut behind = Vec::from_slice(alloc, b"ECRYIMG1\x00\x00\x0f\xfe")?;
    let mut list = String::from_str(alloc, "names")?;
    for number in 1000..5095u16 {
        let name = format!(in alloc; "{number}")?;
        put_directory(&mut image, 1, &name)?;
        list.push_str(&format!(in alloc; " d:{name}")?)?;
        if number > 1000 {
            put_directory(&mut behind, 1, &name)?;
        }
    }
    let lines = [
        ("mkdir /zz", "err nonodes"),
        ("list /", &list),
        ("stat /5094", "ok d 4095"),
        ("rename /1000 /zz", "ok"),
        ("rmdir /zz", "ok"),
        ("mkdir /zz", "err nonodes"),
    ];
    assert_replies(&rt, alloc, &image, &lines, &behind)
}

// The same directories, made by lines.
#[test]
fn as_many_names_are_made_as_there_are_nodes(rt: HostRuntime) -> Result<(), Fail> {
    let alloc = rt.alloc();
    let mut behind = Vec::from_slice(alloc, b"ECRYIMG1\x00\x00\x0f\xff")?;
    let mut texts = Vec::new(alloc);
    for number in 1000..5095u16 {
        let name = format!(in alloc; "{number}")?;
        put_directory(&mut behind, 1, &name)?;
        texts.push(format!(in alloc; "mkdir /{name}")?)?;
    }
    let mut lines = Vec::new(alloc);
    for text in &texts {
        lines.push((text.as_str(), "ok"))?;
    }
    lines.push(("mkdir /zz", "err nonodes"))?;
    lines.push(("stat /5094", "ok d 4095"))?;
    assert_replies(&rt, alloc, EMPTY_IMAGE, &lines, &behind)
}
