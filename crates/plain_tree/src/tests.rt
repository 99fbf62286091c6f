use crate::{Name, Path, Prepared, Renaming, Spare, Tree, TreeCall, TreeRefusal, TreeReply};
use lower_model::{Items, Kind};
use std::alloc::Global;
use std::process::Abort;
use std::test::Fail;
use tree_model::DirEntries;

fn name(alloc: Global, octets: &[u8]) -> Result<Name, Fail> {
    Ok(
        Name::new(Vec::from_slice(alloc, octets)?)
            .ok()
            .ok_or("no name")?,
    )
}

/// The path that is written so, each name behind a slash.
fn path(alloc: Global, text: &[u8]) -> Result<Path, Fail> {
    let mut path = Path::with_room(alloc, text.len())?;
    for part in text.split(|c| *c == b'/') {
        if !part.is_empty() {
            path.push(&name(alloc, part)?)?;
        }
    }
    Ok(path)
}

/// The call that is written so: its word, and its one or two paths.
fn call(alloc: Global, text: &[u8]) -> Result<TreeCall, Fail> {
    let mut words = text.split(|c| *c == b' ');
    let word = words.next().ok_or("no word")?;
    let first = path(alloc, words.next().ok_or("no path")?)?;
    if word == b"rename".as_slice() {
        let second = path(alloc, words.next().ok_or("no second path")?)?;
        return Ok(TreeCall::Rename(Renaming::between(first, &second)?));
    }
    match word {
        b"resolve" => Ok(TreeCall::Resolve(first)),
        b"create" => Ok(TreeCall::Create(first)),
        b"mkdir" => Ok(TreeCall::Mkdir(first)),
        b"rmdir" => Ok(TreeCall::Rmdir(first)),
        b"unlink" => Ok(TreeCall::Unlink(first)),
        b"list" => Ok(TreeCall::List(first)),
        b"stat" => Ok(TreeCall::Stat(first)),
        _ => Err("no call")?,
    }
}

fn refusal(refusal: TreeRefusal) -> &'static [u8] {
    match refusal {
        TreeRefusal::NameLong => b"namelong",
        TreeRefusal::NotFound => b"notfound",
        TreeRefusal::NotDir => b"notdir",
        TreeRefusal::IsRoot => b"isroot",
        TreeRefusal::Exists => b"exists",
        TreeRefusal::IsDir => b"isdir",
        TreeRefusal::Inside => b"inside",
        TreeRefusal::NotEmpty => b"notempty",
        TreeRefusal::NoNodes => b"nonodes",
    }
}

fn letter(kind: Kind) -> u8 {
    match kind {
        Kind::Dir => b'd',
        Kind::File => b'f',
    }
}

fn push_entries(to: &mut Vec<u8>, entries: DirEntries<'_>) -> Result<(), Fail> {
    let mut rest = entries;
    while let Some((kind, name, behind)) = rest.split_first() {
        to.push(b' ')?;
        to.push(letter(kind))?;
        to.push(b':')?;
        to.extend_from_slice(name)?;
        rest = behind;
    }
    Ok(())
}

/// A reply in a few octets: a node by its number, which is below ten, and a list as `names` and its entries.
fn told(alloc: Global, reply: &TreeReply) -> Result<Vec<u8>, Fail> {
    let mut octets = Vec::new(alloc);
    match reply {
        TreeReply::Done => octets.extend_from_slice(b"done")?,
        TreeReply::Refused(why) => octets.extend_from_slice(refusal(*why))?,
        TreeReply::LowerFault => octets.extend_from_slice(b"lower")?,
        TreeReply::Memory => octets.extend_from_slice(b"memory")?,
        TreeReply::Node(node) => {
            octets.extend_from_slice(b"node ")?;
            octets.push(b'0' + (node % 10) as u8)?;
        }
        TreeReply::Info(kind, node) => {
            octets.push(letter(*kind))?;
            octets.push(b' ')?;
            octets.push(b'0' + (node % 10) as u8)?;
        }
        TreeReply::Names(listing) => {
            octets.extend_from_slice(b"names")?;
            push_entries(&mut octets, listing.entries())?;
        }
    }
    Ok(octets)
}

/// Makes the calls in turn, a line for each, which is to answer what stands behind ` = `.
fn answers(rt: &impl Abort, alloc: Global, tree: &mut Tree, lines: &[u8]) -> Result<(), Fail> {
    for line in lines.split(|c| *c == b'\n') {
        let mut halves = line.split(|c| *c == b'=');
        let text = halves.next().ok_or("no call")?.trim_ascii();
        let want = halves.next().ok_or("no answer")?.trim_ascii();
        let reply = tree.step(alloc, &call(alloc, text)?);
        assert_eq!(rt; told(alloc, &reply)?.as_slice(), want);
    }
    Ok(())
}

/// A directory `d` with the file `x`, an empty one `e`, and the file `f`, which have the numbers 1 to 4.
fn small_tree(rt: &impl Abort, alloc: Global) -> Result<Tree, Fail> {
    let mut tree = Tree::new(alloc, 3, 1)?;
    answers(
        rt,
        alloc,
        &mut tree,
        b"\
mkdir /d = done\n\
create /d/x = node 2\n\
mkdir /e = done\n\
create /f = node 4",
    )?;
    Ok(tree)
}

#[test]
fn answers_each_call_by_its_tests(rt: HostRuntime) -> Result<(), Fail> {
    let mut tree = small_tree(&rt, rt.alloc())?;
    answers(
        &rt,
        rt.alloc(),
        &mut tree,
        b"\
resolve /f = node 4\n\
resolve /g = notfound\n\
resolve /f/g = notdir\n\
resolve /d = isdir\n\
resolve / = isdir\n\
create /long = namelong\n\
create /g/h = notfound\n\
create /f/h = notdir\n\
create / = isroot\n\
create /f = exists\n\
mkdir /g/long = namelong\n\
mkdir /g/h = notfound\n\
mkdir /f/h = notdir\n\
mkdir / = isroot\n\
mkdir /d = exists\n\
rmdir /g = notfound\n\
rmdir /f = notdir\n\
rmdir / = isroot\n\
rmdir /d = notempty\n\
unlink /long = notfound\n\
unlink /f/g = notdir\n\
unlink /d = isdir\n\
unlink / = isdir\n\
list /long = notfound\n\
list /f = notdir\n\
list / = names d:d d:e f:f\n\
stat /g = notfound\n\
stat /f/g = notdir\n\
stat /f = f 4\n\
stat / = d 0\n\
unlink /d/x = done\n\
rmdir /d = done\n\
list / = names d:e f:f\n\
mkdir /d = done\n\
stat /d = d 5",
    )
}

#[test]
fn renames_by_its_tests(rt: HostRuntime) -> Result<(), Fail> {
    let mut tree = small_tree(&rt, rt.alloc())?;
    answers(
        &rt,
        rt.alloc(),
        &mut tree,
        b"\
rename /g /long = namelong\n\
rename /g /h/i = notfound\n\
rename /f /h/i = notfound\n\
rename /f /f/i = notdir\n\
rename /d /f = notdir\n\
rename / /f = notdir\n\
rename /d /d/x = notdir\n\
rename / /d = isroot\n\
rename / /g = isroot\n\
rename /f / = isroot\n\
rename /f /d = isdir\n\
rename /d /d/g = inside\n\
rename /e /d = notempty\n\
rename /d/x /d = isdir\n\
rename /d /d = done\n\
rename /f /f = done\n\
list / = names d:d d:e f:f\n\
rename /d /e = done\n\
list / = names d:e f:f\n\
stat /e/x = f 2\n\
rename /f /e/x = done\n\
stat /e/x = f 4\n\
rename /e/x /a = done\n\
rename /e /b = done\n\
list / = names f:a d:b\n\
stat /b = d 1\n\
rename /a /b = isdir",
    )
}

#[test]
fn foreign_entries_block_and_stay(rt: HostRuntime) -> Result<(), Fail> {
    let mut tree = Tree::new(rt.alloc(), 255, 4)?;
    tree.enter(0, name(rt.alloc(), b"d")?, Kind::Dir, 1)?;
    let lower = Items::from_slice(rt.alloc(), b"~b")?;
    tree.enter_foreign(0, lower, 2, Some(name(rt.alloc(), b"b")?))?;
    let lower = Items::from_slice(rt.alloc(), b"#")?;
    tree.enter_foreign(1, lower, 3, None)?;
    answers(
        &rt,
        rt.alloc(),
        &mut tree,
        b"\
mkdir /e = done\n\
create /f = node 5\n\
stat /b = notfound\n\
create /b = exists\n\
mkdir /b = exists\n\
rename /f /b = exists\n\
rename /d /b = exists\n\
rename /d /d/b = inside\n\
rmdir /d = notempty\n\
rename /e /d = notempty\n\
list / = names d:d d:e f:f\n\
list /d = names\n\
rename /f /d/b = done\n\
create /d/c = node 6\n\
rename /d /e = done\n\
list /e = names f:b f:c\n\
unlink /e/b = done\n\
unlink /e/c = done\n\
rmdir /e = notempty",
    )
}

#[test]
fn measures_names_in_octets(rt: HostRuntime) -> Result<(), Fail> {
    let mut tree = Tree::new(rt.alloc(), 255, 1)?;
    let longest = vec![in rt.alloc(); b'n'; 255]?;
    let mut path = Path::root(rt.alloc());
    path.push(&name(rt.alloc(), &longest)?)?;
    let reply = tree.step(rt.alloc(), &TreeCall::Mkdir(path));
    assert_eq!(rt; told(rt.alloc(), &reply)?.as_slice(), b"done".as_slice());
    Ok(())
}

#[test]
fn lists_in_octet_order(rt: HostRuntime) -> Result<(), Fail> {
    let mut tree = Tree::new(rt.alloc(), 255, 1)?;
    answers(
        &rt,
        rt.alloc(),
        &mut tree,
        b"\
mkdir /\xff = done\n\
mkdir /b = done\n\
mkdir /\x80a = done\n\
mkdir /ab = done\n\
mkdir /\x80 = done\n\
mkdir /a = done\n\
mkdir /B = done\n\
list / = names d:B d:a d:ab d:b d:\x80 d:\x80a d:\xff",
    )
}

#[test]
fn makes_no_more_than_4096_nodes(rt: HostRuntime) -> Result<(), Fail> {
    let mut tree = Tree::new(rt.alloc(), 255, 4095)?;
    answers(
        &rt,
        rt.alloc(),
        &mut tree,
        b"\
mkdir /a = done\n\
mkdir /b = nonodes\n\
create /b = nonodes\n\
mkdir /a = exists\n\
mkdir /c/d = notfound\n\
rename /a /c = done\n\
rmdir /c = done\n\
mkdir /a = nonodes\n\
list / = names",
    )
}

#[test]
fn goes_4095_levels_deep(rt: HostRuntime) -> Result<(), Fail> {
    let mut tree = Tree::new(rt.alloc(), 255, 1)?;
    let mut path = Path::root(rt.alloc());
    for _ in 0..4095 {
        path.push(&name(rt.alloc(), b"d")?)?;
        let reply = tree.step(rt.alloc(), &TreeCall::Mkdir(path.copied(rt.alloc())?));
        assert_eq!(rt; told(rt.alloc(), &reply)?.as_slice(), b"done".as_slice());
    }
    assert_eq!(rt; tree.places().len(), 4096);
    Ok(())
}

#[test]
fn walks_to_a_node_and_its_kind(rt: HostRuntime) -> Result<(), Fail> {
    let tree = small_tree(&rt, rt.alloc())?;
    let file = path(rt.alloc(), b"/d/x")?;
    let none = path(rt.alloc(), b"/f/x")?;
    assert!(rt; tree.walk(file.parts()) == Some((2, Kind::File)));
    assert!(rt; tree.walk(none.parts()).is_none());
    Ok(())
}

#[test]
fn a_change_that_is_prepared_can_be_left(rt: HostRuntime) -> Result<(), Fail> {
    let mut tree = small_tree(&rt, rt.alloc())?;
    let mut spare = Spare::new(rt.alloc());
    let left = tree.prepare(rt.alloc(), &call(rt.alloc(), b"unlink /f")?, &mut spare);
    assert!(rt; matches!(left, Prepared::Change(_)));
    answers(
        &rt,
        rt.alloc(),
        &mut tree,
        b"\
stat /f = f 4",
    )?;
    match tree.prepare(
        rt.alloc(),
        &call(rt.alloc(), b"rename /f /d/y")?,
        &mut spare,
    ) {
        Prepared::Change(change) => {
            let reply = tree.change(rt.alloc(), change, &mut spare);
            assert_eq!(rt; told(rt.alloc(), &reply)?.as_slice(), b"done".as_slice());
        }
        Prepared::Answer(_) => return Err("an answer")?,
    }
    answers(
        &rt,
        rt.alloc(),
        &mut tree,
        b"\
list /d = names f:x f:y\n\
stat /f = notfound",
    )
}
