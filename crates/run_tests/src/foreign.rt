ghost use Rattle.std.specs.Prelude.{◌≡◌, ◌∷◌};
ghost use Rattle.name_tag70.specs.PlainNames.{upper_of};
ghost use Rattle.std.proofs.Common.{rules};
ghost use Rattle.run_tests.specs.Tilde.{without_tilde};

use lower_image::read_image;
use lower_mem::{MemFails, MemMaker, MemNames};
use lower_model::Items;
use lower_tree::{LowerMaker, LowerNames};
use name_form::{NameError, NameForm};
use name_tag70::PlainNames;
use namespace::{Names, NamesFault};
use plain_tree::{Name, Path, Renaming, TreeCall, TreeRefusal, TreeReply};
use std::alloc::{AllocError, Global};
use std::test::Fail;
use turn_lock::Link;

/// The form in which a lower name may have a tilde in front, and a written one has.
#[derive(Clone, Copy)]
pub(crate) struct Tilde;

/// A lower name without the tilde in front, where it has one.
fn without_tilde(lower: &[u8]) -> &[u8]
    ensures { result.now ≡ without_tilde lower.now }
{
    match lower.split_first() {
        Some((first, behind)) if *first == b'~' => behind,
        _ => lower,
    }
}

impl NameForm for Tilde {
    ghost upper = { λ form lower. upper_of (without_tilde lower) };

    ghost written = { λ form name. 126 ∷ name };

    ghost longest = { λ form. 100 };

    ghost reads_written = { λ form name is fits. Prim.search rules };

    ghost reads_names = { λ form lower name is reads. Prim.search rules };

    ghost writes_names = { λ form name is fits. Prim.search rules };

    fn read(&self, alloc: Global, lower: &[u8]) -> Result<Items<u8>, NameError> {
        PlainNames.read(alloc, without_tilde(lower))
    }

    fn write(&self, alloc: Global, name: &[u8]) -> Result<Items<u8>, AllocError> {
        let mut octets = Vec::from_slice(alloc, b"~")?;
        octets.extend_from_slice(name)?;
        Ok(Items::from_vec(octets))
    }

    fn limit(&self) -> usize {
        100
    }
}

/// The directories `a` (node 1, with the files `foo` and `~foo`), `b` (4), `c` (5, with the file `~`) and `d` (7), the file `f` (8),
/// and the directory `~d` (9, with the file `g`).
const LOWER: &[u8] = b"ECRYIMG1\0\0\0\x0a\
    \0\x01\0\x01a\0\x02\x01\x03foo\0\0\0\0\0\0\x02\x01\x04~foo\0\0\0\0\0\
    \0\x01\0\x01b\0\x01\0\x01c\0\x02\x01\x01~\0\0\0\0\0\
    \0\x01\0\x01d\0\x01\x01\x01f\0\0\0\0\0\0\x01\0\x02~d\0\x02\x01\x01g\0\0\0\0\0";

/// The lower names of the root, of `a` and of `~d` in that tree.
const FIRST: [(u32, &str); 3] = [(0, "/a/b/c/d/f/~d"), (1, "/foo/~foo"), (9, "/g")];

/// How many calls on the lower names open that tree: a list of `/` and of `~d` to find the last node,
/// and one of each directory that is shown.
const OPENING: u64 = 7;

/// That tree, or why it isn't opened. The calls on the lower names with these numbers fail.
fn opening(
    alloc: Global,
    fails: &[u64],
) -> Result<Result<Names<MemNames, Tilde>, NamesFault<MemNames, Tilde>>, Fail> {
    let mut maker = MemMaker::new(MemFails {
        maker: Vec::new(alloc),
        names: Vec::from_slice(alloc, fails)?,
        changes: Vec::new(alloc),
        reads: Vec::new(alloc),
    });
    let Ok(parts) = maker.split(alloc, read_image(alloc, LOWER)?) else {
        return Err("split".into());
    };
    Ok(Names::new(alloc, parts.names, Tilde))
}

/// That tree, opened.
fn opened(alloc: Global, fails: &[u64]) -> Result<Names<MemNames, Tilde>, Fail> {
    match opening(alloc, fails)? {
        Ok(names) => Ok(names),
        Err(_) => Err("not opened".into()),
    }
}

/// The path that is written so, each name behind a slash.
fn path(alloc: Global, text: &str) -> Result<Path, Fail> {
    let mut path = Path::with_room(alloc, text.len())?;
    for part in text.as_bytes().split(|c| *c == b'/') {
        if !part.is_empty() {
            let name = Name::new(Vec::from_slice(alloc, part)?)
                .ok()
                .ok_or("no name")?;
            path.push(&name)?;
        }
    }
    Ok(path)
}

/// The call that is written so: its word, and a path or two.
fn call(alloc: Global, line: &str) -> Result<TreeCall, Fail> {
    let (word, paths) = line.split_once(' ').ok_or("no path")?;
    if let Some((old, new)) = paths.split_once(' ') {
        let renaming = Renaming::between(path(alloc, old)?, &path(alloc, new)?)?;
        return Ok(TreeCall::Rename(renaming));
    }
    let path = path(alloc, paths)?;
    match word {
        "create" => Ok(TreeCall::Create(path)),
        "mkdir" => Ok(TreeCall::Mkdir(path)),
        "rmdir" => Ok(TreeCall::Rmdir(path)),
        "unlink" => Ok(TreeCall::Unlink(path)),
        _ => Ok(TreeCall::List(path)),
    }
}

fn refusal_word(refusal: TreeRefusal) -> &'static str {
    match refusal {
        TreeRefusal::NameLong => "namelong",
        TreeRefusal::NotFound => "notfound",
        TreeRefusal::NotDir => "notdir",
        TreeRefusal::IsRoot => "isroot",
        TreeRefusal::Exists => "exists",
        TreeRefusal::IsDir => "isdir",
        TreeRefusal::Inside => "inside",
        TreeRefusal::NotEmpty => "notempty",
        TreeRefusal::NoNodes => "nonodes",
    }
}

/// What a call answers: names each behind a slash, or a word.
fn answer(alloc: Global, names: &mut Names<MemNames, Tilde>, line: &str) -> Result<Vec<u8>, Fail> {
    let mut octets = Vec::new(alloc);
    match names.step(alloc, Link::new(alloc)?, 0, 0, call(alloc, line)?) {
        TreeReply::Names(all) => {
            let mut rest = all.entries();
            while let Some((_, name, behind)) = rest.split_first() {
                octets.push(b'/')?;
                octets.extend_from_slice(name)?;
                rest = behind;
            }
        }
        TreeReply::Refused(refusal) => {
            octets.extend_from_slice(refusal_word(refusal).as_bytes())?;
        }
        TreeReply::LowerFault => octets.extend_from_slice(b"lower")?,
        TreeReply::Memory => return Err("memory".into()),
        _ => octets.extend_from_slice(b"ok")?,
    }
    Ok(octets)
}

/// The lower names of a directory, each behind a slash.
fn lower_names(alloc: Global, store: &mut MemNames, dir: u32) -> Result<Vec<u8>, Fail> {
    let Ok(listed) = store.list(alloc, dir) else {
        return Err("list".into());
    };
    let mut octets = Vec::new(alloc);
    for entry in listed.as_slice() {
        octets.push(b'/')?;
        octets.extend_from_slice(entry.name.as_slice())?;
    }
    Ok(octets)
}

/// The lower names of directories have to be as they stand beside their nodes.
fn check_store(alloc: Global, store: &mut MemNames, left: &[(u32, &str)]) -> Result<(), Fail> {
    for (dir, wanted) in left {
        let told = lower_names(alloc, store, *dir)?;
        if told.as_slice() != wanted.as_bytes() {
            return Err(format!(in alloc; "lower names of {dir}: not {wanted}")?.into());
        }
    }
    Ok(())
}

/// Opens the tree, makes calls and ends it. Calls have to be answered, and lower names of directories left, as they stand beside them.
fn check(
    alloc: Global,
    fails: &[u64],
    calls: &[(&str, &str)],
    left: &[(u32, &str)],
) -> Result<(), Fail> {
    let mut names = opened(alloc, fails)?;
    for (line, wanted) in calls {
        let told = answer(alloc, &mut names, line)?;
        if told.as_slice() != wanted.as_bytes() {
            return Err(format!(in alloc; "{line}: not {wanted}")?.into());
        }
    }
    let (mut store, _, _) = names.end();
    check_store(alloc, &mut store, left)
}

#[test]
fn the_first_lower_name_is_shown(rt: HostRuntime) -> Result<(), Fail> {
    let calls = [
        ("list /", "/a/b/c/d/f"),
        ("list /a", "/foo"),
        ("list /c", ""),
        ("mkdir /a/foo", "exists"),
        ("rename /f /a/foo", "ok"),
        ("list /a", "/foo"),
        ("list /", "/a/b/c/d"),
    ];
    let left = [(0, "/a/b/c/d/~d"), (1, "/foo/~foo")];
    check(rt.alloc(), &[], &calls, &left)
}

#[test]
fn a_foreign_entry_counts_and_blocks(rt: HostRuntime) -> Result<(), Fail> {
    let calls = [
        ("rmdir /c", "notempty"),
        ("unlink /a/foo", "ok"),
        ("list /a", ""),
        ("unlink /a/foo", "notfound"),
        ("rmdir /a", "notempty"),
        ("mkdir /a/foo", "exists"),
        ("create /a/foo", "exists"),
        ("rename /f /a/foo", "exists"),
        ("create /a/other", "ok"),
        ("rename /a/other /b/foo", "ok"),
        ("list /b", "/foo"),
    ];
    let left = [(1, "/~foo"), (4, "/~foo"), (5, "/~")];
    check(rt.alloc(), &[], &calls, &left)
}

// Where several refusals are due, the first in their order comes.
#[test]
fn renames_are_refused_in_order(rt: HostRuntime) -> Result<(), Fail> {
    let calls = [
        ("rename /f /b", "isdir"),
        ("rename /b /f", "notdir"),
        ("rename /b /c", "notempty"),
        ("rename /a /a", "ok"),
        ("rename /c /c", "ok"),
        ("rename /a /a/foo", "notdir"),
        ("unlink /a/foo", "ok"),
        ("rename /a /a/foo", "exists"),
        ("rename /a /a/new", "inside"),
        ("rename /b /a", "notempty"),
        ("rename /f /a", "isdir"),
        ("rename /nope /a/foo", "notfound"),
        ("rename / /a/foo", "isroot"),
        ("rename /c /b", "ok"),
        ("list /", "/a/b/d/f"),
    ];
    let left = [(0, "/a/b/d/f/~d"), (1, "/~foo"), (5, "/~")];
    check(rt.alloc(), &[], &calls, &left)
}

// New names are written, the others kept, and what is below a foreign directory stays.
#[test]
fn only_new_names_are_written(rt: HostRuntime) -> Result<(), Fail> {
    let calls = [
        ("list /d/g", "notfound"),
        ("rmdir /d", "ok"),
        ("mkdir /d", "exists"),
        ("rename /b /d", "exists"),
        ("list /d", "notfound"),
        ("rename /f /new", "ok"),
        ("rename /a /moved", "ok"),
        ("mkdir /b/made", "ok"),
        ("list /moved", "/foo"),
        ("list /", "/b/c/moved/new"),
    ];
    let left = [
        (0, "/b/c/~d/~moved/~new"),
        (1, "/foo/~foo"),
        (4, "/~made"),
        (9, "/g"),
    ];
    check(rt.alloc(), &[], &calls, &left)
}

#[test]
fn a_change_that_fails_changes_nothing(rt: HostRuntime) -> Result<(), Fail> {
    for line in [
        "mkdir /new",
        "create /a/new",
        "rmdir /d",
        "unlink /a/foo",
        "rename /a /new",
        "rename /f /a/foo",
        "rename /b /d",
    ] {
        let calls = [
            (line, "lower"),
            ("list /", "/a/b/c/d/f"),
            ("list /a", "/foo"),
        ];
        check(rt.alloc(), &[OPENING + 1], &calls, &FIRST)?;
    }
    Ok(())
}

/// The lower names behind an opening at which the call with this number fails, as the one fault.
fn names_behind_fault(alloc: Global, number: u64) -> Result<MemNames, Fail> {
    match opening(alloc, &[number])? {
        Err(
            NamesFault::Lower {
                lower,
                before: 0,
                after: 1,
                ..
            },
        ) => Ok(lower),
        _ => Err("no fault, or another".into()),
    }
}

#[test]
fn each_call_of_the_opening_may_fail(rt: HostRuntime) -> Result<(), Fail> {
    let alloc = rt.alloc();
    for number in 1..=OPENING {
        let mut store = names_behind_fault(alloc, number)?;
        check_store(alloc, &mut store, &FIRST)?;
    }
    Ok(())
}
