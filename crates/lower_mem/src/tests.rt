ghost use Rattle.std.specs.Prelude.{◌≡◌, ◌≤◌, [], ◌∷◌, IfOk, length};
ghost use Rattle.tree_model.specs.declared.place.Place.TheVariants.{Dir, File};

use crate::{MemBodies, MemFails, MemMaker, MemNames};
use lower_image::{read_image, write_image};
use lower_tree::{Kind, LowerBodies, LowerError, LowerMaker, LowerNames, MOST_ENTRIES, Parts};
use names_model::LONGEST_PLAIN_NAME;
use plain_tree::Tree;
use std::alloc::Global;
use std::test::Fail;
use tree_model::Name;

/// A directory `a` with a file `b` in it that has an attribute of two octets and a body of three, and beside it a file `c`
/// of one octet.
const FILES: &[u8] =
    b"ECRYIMG1\0\0\0\x03\0\x01\0\x01a\0\x02\x01\x01b\x01\0\0\0\x02xy\0\0\0\x03abc\0\x01\x01\x01c\0\0\0\0\x01d";

fn maker(alloc: Global, maker: &[u64], names: &[u64]) -> Result<MemMaker, Fail> {
    Ok(MemMaker::new(MemFails {
        maker: Vec::from_slice(alloc, maker)?,
        names: Vec::from_slice(alloc, names)?,
        changes: Vec::from_slice(alloc, &[(1, 1), (2, 2)])?,
        reads: Vec::from_slice(alloc, &[(1, 2)])?,
    }))
}

/// The parts of a tree.
fn split(
    alloc: Global,
    maker: &mut MemMaker,
    image: &[u8],
) -> Result<Parts<MemNames, MemBodies>, Fail>
    ensures { IfOk result (λ parts. length parts.bodies.items ≡ 8) }
{
    let Ok(parts) = maker.split(alloc, read_image(alloc, image)?) else {
        return Err("split".into());
    };
    Ok(parts)
}

/// The image of a tree that was split and united, or none where `unite` fails.
fn united(alloc: Global, maker: &mut MemMaker, image: &[u8]) -> Result<Option<Vec<u8>>, Fail> {
    let Ok(parts) = maker.split(alloc, read_image(alloc, image)?) else {
        return Err("split".into());
    };
    match maker.unite(alloc, parts) {
        Ok(tree) => Ok(Some(write_image(alloc, &tree)?)),
        Err(_) => Ok(None),
    }
}

/// Whether a tree is the same when it was split and united.
fn is_kept(alloc: Global, image: &[u8]) -> Result<bool, Fail> {
    let mut maker = maker(alloc, &[], &[])?;
    let united = united(alloc, &mut maker, image)?;
    Ok(united.is_some_and(|united| united.as_slice() == image))
}

#[test]
fn keeps_files_and_directories(rt: HostRuntime) -> Result<(), Fail> {
    assert!(rt; is_kept(rt.alloc(), FILES)?);
    assert!(rt; is_kept(rt.alloc(), b"ECRYIMG1\0\0\0\0")?);
    Ok(())
}

/// The head of an image of as many entries as there may be.
fn full_head(alloc: Global) -> Result<Vec<u8>, Fail> {
    Ok(Vec::from_slice(alloc, b"ECRYIMG1\0\0\x0f\xff")?)
}

#[test]
fn keeps_a_full_directory(rt: HostRuntime) -> Result<(), Fail> {
    let mut image = full_head(rt.alloc())?;
    for number in 0..MOST_ENTRIES as u32 {
        let name = [b'0' + (number / 64) as u8, b'0' + (number % 64) as u8];
        image.extend_from_slice(b"\0\x01\x01\x02")?;
        image.extend_from_slice(&name)?;
        image.extend_from_slice(b"\0\0\0\0\0")?;
    }
    assert!(rt; is_kept(rt.alloc(), &image)?);
    Ok(())
}

#[test]
fn keeps_the_deepest_directory(rt: HostRuntime) -> Result<(), Fail> {
    let mut image = full_head(rt.alloc())?;
    for level in 1..=MOST_ENTRIES as u32 {
        image.push((level / 256) as u8)?;
        image.push((level % 256) as u8)?;
        image.extend_from_slice(b"\0\x01d")?;
    }
    assert!(rt; is_kept(rt.alloc(), &image)?);
    Ok(())
}

/// Whether a tree cannot be split since that call fails.
fn fails_to_split(alloc: Global, maker: &mut MemMaker) -> Result<bool, Fail> {
    let split = maker.split(alloc, read_image(alloc, FILES)?);
    Ok(matches!(split, Err(LowerError::Failed)))
}

#[test]
fn splits_or_fails_by_number(rt: HostRuntime) -> Result<(), Fail> {
    let mut maker = maker(rt.alloc(), &[1], &[])?;
    assert!(rt; fails_to_split(rt.alloc(), &mut maker)?);
    assert!(rt; united(rt.alloc(), &mut maker, FILES)?.is_some());
    assert_eq!(rt; maker.faults(), 1);
    Ok(())
}

#[test]
fn unites_or_fails_by_number(rt: HostRuntime) -> Result<(), Fail> {
    let mut maker = maker(rt.alloc(), &[2], &[])?;
    assert!(rt; united(rt.alloc(), &mut maker, FILES)?.is_none());
    assert!(rt; united(rt.alloc(), &mut maker, FILES)?.is_some());
    assert_eq!(rt; maker.faults(), 1);
    Ok(())
}

/// How many names a directory lists, or none where the call fails.
fn count_in(alloc: Global, names: &mut MemNames, dir: u32) -> Option<usize> {
    match names.list(alloc, dir) {
        Ok(listed) => Some(listed.len()),
        Err(_) => None,
    }
}

/// How many names the two directories of `FILES` list, the root asked three times.
fn counts(alloc: Global, maker: &mut MemMaker) -> Result<[Option<usize>; 4], Fail> {
    let mut parts = split(alloc, maker, FILES)?;
    let counts = [
        count_in(alloc, &mut parts.names, 0),
        count_in(alloc, &mut parts.names, 0),
        count_in(alloc, &mut parts.names, 0),
        count_in(alloc, &mut parts.names, 1),
    ];
    maker.take_back(parts);
    Ok(counts)
}

#[test]
fn lists_or_fails_by_number(rt: HostRuntime) -> Result<(), Fail> {
    let mut maker = maker(rt.alloc(), &[], &[1, 3])?;
    assert!(rt; counts(rt.alloc(), &mut maker)? == [None, Some(2), None, Some(1)]);
    assert!(rt; counts(rt.alloc(), &mut maker)? == [Some(2), Some(2), Some(2), Some(1)]);
    assert_eq!(rt; maker.tally(0), 2);
    Ok(())
}

/// The names of a tree of one file, `a`. The calls with these numbers fail.
fn one_file(alloc: Global, fails: &[u64]) -> Result<MemNames, Fail>
    ensures { IfOk result (λ names. names.places ≡ Dir (record { shown = (97 ∷ [], 1) ∷ []; foreign = [] }) ∷ File ∷ []) }
{
    let mut tree = Tree::new(alloc, LONGEST_PLAIN_NAME, 2)?;
    tree.enter(0, Name::from_slice(alloc, b"a")?, Kind::File, 1)?;
    Ok(MemNames::new(alloc, tree, Vec::from_slice(alloc, fails)?))
}

/// The names at the root, one behind another.
fn names_at_root(alloc: Global, names: &mut MemNames) -> Result<Vec<u8>, Fail> {
    let Ok(listed) = names.list(alloc, 0) else {
        return Err("list".into());
    };
    let mut octets = Vec::new(alloc);
    for entry in listed.as_slice() {
        octets.extend_from_slice(entry.name.as_slice())?;
    }
    Ok(octets)
}

#[test]
fn has_the_names_of_a_tree(rt: HostRuntime) -> Result<(), Fail> {
    let alloc = rt.alloc();
    let mut names = MemNames::of(alloc, &read_image(alloc, FILES)?)?;
    assert!(rt; names_at_root(alloc, &mut names)?.as_slice() == b"ac".as_slice());
    assert_eq!(rt; names.faults(), 0);
    Ok(())
}

/// Whether a file `b` was created beside the one file, and the names then.
fn with_second(alloc: Global, fails: &[u64]) -> Result<(bool, Vec<u8>), Fail> {
    let mut names = one_file(alloc, fails)?;
    let is_done = names.create(alloc, 0, b"b", Kind::File, 2).is_ok();
    Ok((is_done, names_at_root(alloc, &mut names)?))
}

#[test]
fn creates_or_fails_by_number(rt: HostRuntime) -> Result<(), Fail> {
    let (is_done, names) = with_second(rt.alloc(), &[1])?;
    assert!(rt; !is_done && names.as_slice() == b"a".as_slice());
    let (is_done, names) = with_second(rt.alloc(), &[])?;
    assert!(rt; is_done && names.as_slice() == b"ab".as_slice());
    Ok(())
}

/// Whether the one file was removed, and the names then.
fn without_file(alloc: Global, fails: &[u64]) -> Result<(bool, Vec<u8>), Fail> {
    let mut names = one_file(alloc, fails)?;
    let is_done = names.remove(alloc, 0, b"a").is_ok();
    Ok((is_done, names_at_root(alloc, &mut names)?))
}

#[test]
fn removes_or_fails_by_number(rt: HostRuntime) -> Result<(), Fail> {
    let (is_done, names) = without_file(rt.alloc(), &[1])?;
    assert!(rt; !is_done && names.as_slice() == b"a".as_slice());
    let (is_done, names) = without_file(rt.alloc(), &[])?;
    assert!(rt; is_done && names.is_empty());
    Ok(())
}

/// Whether the one file was renamed to `b`, and the names then.
fn with_new_name(alloc: Global, fails: &[u64]) -> Result<(bool, Vec<u8>), Fail> {
    let mut names = one_file(alloc, fails)?;
    let is_done = names.rename(alloc, 0, b"a", 0, b"b").is_ok();
    Ok((is_done, names_at_root(alloc, &mut names)?))
}

#[test]
fn renames_or_fails_by_number(rt: HostRuntime) -> Result<(), Fail> {
    let (is_done, names) = with_new_name(rt.alloc(), &[1])?;
    assert!(rt; !is_done && names.as_slice() == b"a".as_slice());
    let (is_done, names) = with_new_name(rt.alloc(), &[])?;
    assert!(rt; is_done && names.as_slice() == b"b".as_slice());
    Ok(())
}

/// A node of the store with the number 1.
const NODE: u32 = 9;

/// That store, of whose changing calls, and reading ones, those with these numbers fail.
fn store(alloc: Global, changes: &[u64], reads: &[u64]) -> Result<MemBodies, Fail> {
    let changes = Vec::from_slice(alloc, changes)?;
    let reads = Vec::from_slice(alloc, reads)?;
    Ok(MemBodies::new(alloc, 1, changes, reads))
}

/// Writes octets where there is room for them. Whether that was done.
fn put(alloc: Global, bodies: &mut MemBodies, at: u32, octets: &[u8]) -> Result<bool, Fail> {
    let end = u64::from(at) + octets.len() as u64;
    let Ok(()) = bodies.reserve(alloc, NODE, end, 0) else {
        return Err("reserve".into());
    };
    Ok(bodies.write_at(NODE, u64::from(at), octets).is_ok())
}

/// Sets the length. Whether that was done.
fn resize(alloc: Global, bodies: &mut MemBodies, len: u64) -> Result<bool, Fail> {
    let Ok(()) = bodies.reserve(alloc, NODE, len, 0) else {
        return Err("reserve".into());
    };
    Ok(bodies.set_len(NODE, len).is_ok())
}

/// Sets the attribute. Whether that was done.
fn put_attribute(alloc: Global, bodies: &mut MemBodies, attribute: &[u8]) -> Result<bool, Fail>
    requires { 1 ≤ length attribute.now }
{
    let Ok(()) = bodies.reserve(alloc, NODE, 0, attribute.len()) else {
        return Err("reserve".into());
    };
    Ok(bodies.set_attribute(NODE, attribute).is_ok())
}

/// The whole body, if it can be read.
fn body(alloc: Global, bodies: &mut MemBodies) -> Result<Option<Vec<u8>>, Fail> {
    let Ok(len) = bodies.len(NODE) else {
        return Err("len".into());
    };
    let mut octets = vec![in alloc; 0u8; len as usize]?;
    Ok(
        bodies
            .read_at(NODE, 0, &mut octets)
            .is_ok()
            .then_some(octets),
    )
}

fn has_body(alloc: Global, bodies: &mut MemBodies, octets: &[u8]) -> Result<bool, Fail> {
    let body = body(alloc, bodies)?;
    Ok(body.is_some_and(|body| body.as_slice() == octets))
}

fn has_attribute(
    alloc: Global,
    bodies: &mut MemBodies,
    octets: Option<&str>,
) -> Result<bool, Fail> {
    let Ok(attribute) = bodies.attribute(alloc, NODE) else {
        return Err("attribute".into());
    };
    Ok(attribute.as_ref().map(|a| a.as_slice()) == octets.map(|text| text.as_bytes()))
}

#[test]
fn writes_at_the_edges(rt: HostRuntime) -> Result<(), Fail> {
    let alloc = rt.alloc();
    let mut bodies = store(alloc, &[], &[])?;
    for (at, octets, body) in [
        (0u32, "", ""),
        (0, "abc", "abc"),
        (1, "XY", "aXY"),
        (3, "d", "aXYd"),
        (2, "", "aXYd"),
        (6, "e", "aXYd\0\0e"),
        (2, "123456", "aX123456"),
    ] {
        assert!(rt; put(alloc, &mut bodies, at, octets.as_bytes())?);
        assert!(rt; has_body(alloc, &mut bodies, body.as_bytes())?);
    }
    Ok(())
}

#[test]
fn resizes_at_the_edges(rt: HostRuntime) -> Result<(), Fail> {
    let alloc = rt.alloc();
    let mut bodies = store(alloc, &[], &[])?;
    assert!(rt; has_body(alloc, &mut bodies, b"")?);
    assert!(rt; put(alloc, &mut bodies, 0, b"abcdefgh")?);
    for (len, body) in [(8u64, "abcdefgh"), (3, "abc"), (5, "abc\0\0"), (0, "")] {
        assert!(rt; resize(alloc, &mut bodies, len)?);
        assert!(rt; has_body(alloc, &mut bodies, body.as_bytes())?);
    }
    Ok(())
}

#[test]
fn tears_a_write_that_fails(rt: HostRuntime) -> Result<(), Fail> {
    let alloc = rt.alloc();
    let mut bodies = store(alloc, &[2, 3], &[])?;
    for (at, octets, is_put, body) in [
        (0u32, "abcd", true, "abcd"),
        (1, "EFG", false, "a??d"),
        (5, "hijk", false, "a??d\0??"),
    ] {
        assert!(rt; put(alloc, &mut bodies, at, octets.as_bytes())? == is_put);
        assert!(rt; has_body(alloc, &mut bodies, body.as_bytes())?);
    }
    assert_eq!(rt; bodies.faults(), 2);
    Ok(())
}

#[test]
fn keeps_the_length_when_resizing_fails(rt: HostRuntime) -> Result<(), Fail> {
    let alloc = rt.alloc();
    let mut bodies = store(alloc, &[2], &[])?;
    assert!(rt; put(alloc, &mut bodies, 0, b"abcd")?);
    assert!(rt; !resize(alloc, &mut bodies, 2)?);
    assert!(rt; has_body(alloc, &mut bodies, b"abcd")?);
    Ok(())
}

#[test]
fn loses_the_attribute_that_fails(rt: HostRuntime) -> Result<(), Fail> {
    let alloc = rt.alloc();
    let mut bodies = store(alloc, &[2], &[])?;
    for (attribute, left) in [("xy", Some("xy")), ("z", None), ("z", Some("z"))] {
        assert!(rt; put_attribute(alloc, &mut bodies, attribute.as_bytes())? == left.is_some());
        assert!(rt; has_attribute(alloc, &mut bodies, left)?);
    }
    Ok(())
}

#[test]
fn reads_or_fails_by_number(rt: HostRuntime) -> Result<(), Fail> {
    let alloc = rt.alloc();
    let mut bodies = store(alloc, &[], &[1])?;
    assert!(rt; put(alloc, &mut bodies, 0, b"abc")?);
    assert!(rt; !has_body(alloc, &mut bodies, b"abc")?);
    assert!(rt; has_body(alloc, &mut bodies, b"abc")?);
    assert_eq!(rt; bodies.calls(), 6);
    Ok(())
}

#[test]
fn has_nothing_of_other_nodes(rt: HostRuntime) -> Result<(), Fail> {
    let alloc = rt.alloc();
    let mut bodies = store(alloc, &[], &[])?;
    assert!(rt; put(alloc, &mut bodies, 0, b"abc")?);
    for node in [1u32, 8, 10, 17] {
        assert!(rt; matches!(bodies.len(node), Ok(0)));
    }
    assert!(rt; matches!(bodies.reserve(alloc, 8, 0, 0), Err(LowerError::Memory)));
    Ok(())
}

/// Which of two changing calls and two reading ones on a store fail.
fn failing(bodies: &mut MemBodies) -> [bool; 4] {
    [
        bodies.set_len(NODE, 0).is_err(),
        bodies.set_len(NODE, 0).is_err(),
        bodies.read_at(NODE, 0, &mut []).is_err(),
        bodies.read_at(NODE, 0, &mut []).is_err(),
    ]
}

/// Which calls fail of the first three stores that a split makes.
fn failing_in_stores(alloc: Global, maker: &mut MemMaker) -> Result<[[bool; 4]; 3], Fail> {
    let mut parts = split(alloc, maker, FILES)?;
    let failing = [
        failing(&mut parts.bodies[0]),
        failing(&mut parts.bodies[1]),
        failing(&mut parts.bodies[2]),
    ];
    maker.take_back(parts);
    Ok(failing)
}

#[test]
fn hands_each_store_its_numbers(rt: HostRuntime) -> Result<(), Fail> {
    let mut maker = maker(rt.alloc(), &[], &[])?;
    let first = [
        [false; 4],
        [true, false, false, true],
        [false, true, false, false],
    ];
    assert!(rt; failing_in_stores(rt.alloc(), &mut maker)? == first);
    assert!(rt; failing_in_stores(rt.alloc(), &mut maker)? == [[false; 4]; 3]);
    assert_eq!(rt; (maker.tally(1), maker.tally(2), maker.tally(3)), (0, 2, 1));
    Ok(())
}
