use crate::foreign::Tilde;
use lower_image::read_image;
use lower_mem::MemNames;
use lower_tree::MOST_ENTRIES;
use namespace::Names;
use std::alloc::{AllocError, Global};
use std::test::Fail;
use tree_listing::listing;
use tree_model::{Listed, Path};

/// The listing of the tree that an image shows under names with or without a tilde in front.
fn listed(alloc: Global, image: &[u8]) -> Result<Vec<Listed>, Fail> {
    let lower = MemNames::of(alloc, &read_image(alloc, image)?)?;
    let Ok(names) = Names::new(alloc, lower, Tilde) else {
        return Err("not opened".into());
    };
    Ok(listing(alloc, names.places())?)
}

/// Adds a path, each name behind a slash.
fn put_path(octets: &mut Vec<u8>, path: &Path) -> Result<(), AllocError> {
    let mut parts = path.parts();
    while let Some((name, behind)) = parts.split_first() {
        octets.push(b'/')?;
        octets.extend_from_slice(name)?;
        parts = behind;
    }
    Ok(())
}

/// Adds an item: its node, its path, and a lower name behind two slashes.
fn put_item(alloc: Global, octets: &mut Vec<u8>, item: &Listed) -> Result<(), AllocError> {
    match item {
        Listed::Shown(path, node) => {
            octets.extend_from_slice(format!(in alloc; "{node} ")?.as_bytes())?;
            put_path(octets, path)?;
        }
        Listed::Foreign(path, lower, node) => {
            octets.extend_from_slice(format!(in alloc; "{node} ")?.as_bytes())?;
            put_path(octets, path)?;
            octets.extend_from_slice(b"//")?;
            octets.extend_from_slice(lower.as_slice())?;
        }
    }
    octets.push(b';')?;
    Ok(())
}

/// The listing of an image has to be this text.
fn check(alloc: Global, image: &[u8], wanted: &str) -> Result<(), Fail> {
    let mut octets = Vec::new(alloc);
    for item in &listed(alloc, image)? {
        put_item(alloc, &mut octets, item)?;
    }
    if octets.as_slice() != wanted.as_bytes() {
        return Err(format!(in alloc; "not {wanted}")?.into());
    }
    Ok(())
}

// The directories `a` (node 1, with the files `foo` and `~foo`), `b` (4) and `c` (5, with the file `~`), and `~a` (7, with the file `g`).
#[test]
fn foreign_entries_stand_behind_shown_ones(rt: HostRuntime) -> Result<(), Fail> {
    let image = b"ECRYIMG1\0\0\0\x08\
        \0\x01\0\x01a\0\x02\x01\x03foo\0\0\0\0\0\0\x02\x01\x04~foo\0\0\0\0\0\
        \0\x01\0\x01b\0\x01\0\x01c\0\x02\x01\x01~\0\0\0\0\0\
        \0\x01\0\x02~a\0\x02\x01\x01g\0\0\0\0\0";
    check(
        rt.alloc(),
        image,
        "1 /a;2 /a/foo;3 /a//~foo;4 /b;5 /c;6 /c//~;7 //~a;",
    )
}

// The directories `b` (node 1, with the files `y` and `~x`) and `~a` (4, with the file `q`). Nodes follow the lower names.
#[test]
fn entries_stand_in_the_order_of_their_names(rt: HostRuntime) -> Result<(), Fail> {
    let image = b"ECRYIMG1\0\0\0\x05\
        \0\x01\0\x01b\0\x02\x01\x01y\0\0\0\0\0\0\x02\x01\x02~x\0\0\0\0\0\
        \0\x01\0\x02~a\0\x02\x01\x01q\0\0\0\0\0";
    check(rt.alloc(), image, "4 /a;5 /a/q;1 /b;3 /b/x;2 /b/y;")
}

#[test]
fn the_deepest_directory_is_listed(rt: HostRuntime) -> Result<(), Fail> {
    let alloc = rt.alloc();
    let mut image = Vec::from_slice(alloc, b"ECRYIMG1\0\0\x0f\xff")?;
    for level in 1..=MOST_ENTRIES as u32 {
        image.push((level / 256) as u8)?;
        image.push((level % 256) as u8)?;
        image.extend_from_slice(b"\0\x01d")?;
    }
    let items = listed(alloc, &image)?;
    assert_eq!(rt; items.len(), MOST_ENTRIES);
    let mut last = Vec::new(alloc);
    if let Some(item) = items.last() {
        put_item(alloc, &mut last, item)?;
    }
    assert_eq!(rt; last.len(), 5 + 2 * MOST_ENTRIES + 1);
    Ok(())
}
