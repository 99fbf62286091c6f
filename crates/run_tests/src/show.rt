use crate::run::{FAULTLESS, assert_run, job};
use mount_run::OK;
use std::alloc::{AllocError, Global};
use std::process::Abort;
use std::test::Fail;

/// The metadata of a file of one octet under the passphrase `test`, made with Python and OpenSSL: the file key is
/// 10 11 .. 1f, and an extent of zeros decrypts to octets of which the first is 92.
const METADATA: &[u8] = b"\
    \x00\x00\x00\x00\x00\x00\x00\x01\x01\x02\x03\x04\x3d\x83\xb4\xf1\
    \x03\x00\x00\x06\x00\x00\x10\x00\x00\x02\x8c\x1d\x04\x07\x03\x01\
    \x00\x11\x22\x33\x44\x55\x66\x77\x60\xe2\x31\x57\x92\xdf\xb9\xf7\
    \xd5\x16\xae\xc3\xf9\x19\x8c\xe5\x56\xed\x16\x62\x08\x5f\x43\x4f\
    \x4e\x53\x4f\x4c\x45\x00\x00\x00\x00\xd3\x95\x30\x9a\xaa\xd4\xde\
    \x06";

/// Adds a file of the root to an image.
fn put_file(
    image: &mut Vec<u8>,
    name: u8,
    attribute: Option<&[u8]>,
    body: &[u8],
) -> Result<(), AllocError> {
    image.extend_from_slice(&[0, 1, 1, 1, name])?;
    match attribute {
        Some(octets) => {
            image.push(1)?;
            image.extend_from_slice(&(octets.len() as u64).to_be_bytes()[4..])?;
            image.extend_from_slice(octets)?;
        }
        None => image.push(0)?,
    }
    image.extend_from_slice(&(body.len() as u64).to_be_bytes()[4..])?;
    image.extend_from_slice(body)
}

/// An image of one file `f`.
fn one_file(alloc: Global, attribute: Option<&[u8]>, body: &[u8]) -> Result<Vec<u8>, AllocError> {
    let mut image = Vec::from_slice(alloc, b"ECRYIMG1\x00\x00\x00\x01")?;
    put_file(&mut image, b'f', attribute, body)?;
    Ok(image)
}

/// The metadata as the head of a body of this length.
fn body(alloc: Global, len: usize) -> Result<Vec<u8>, AllocError> {
    let mut octets = Vec::from_slice(alloc, METADATA)?;
    octets.resize(len, 0)?;
    Ok(octets)
}

/// An image is to be shown so.
fn assert_image(rt: &impl Abort, alloc: Global, image: &[u8], wanted: &[u8]) -> Result<(), Fail> {
    let octets = job(alloc, image, &["list /"])?;
    assert_run(rt, alloc, "show", octets, FAULTLESS, OK, wanted)
}

/// The file `f` of an image is to be shown so.
fn assert_file(
    rt: &impl Abort,
    alloc: Global,
    attribute: Option<&[u8]>,
    body: &[u8],
    state: &str,
) -> Result<(), Fail> {
    let image = one_file(alloc, attribute, body)?;
    let wanted = format!(in alloc; "ecryptfs-show 1\nf 1 /f {state}\nend\n")?;
    assert_image(rt, alloc, &image, wanted.as_bytes())
}

#[test]
fn files_are_shown_by_their_bodies(rt: HostRuntime) -> Result<(), Fail> {
    let alloc = rt.alloc();
    assert_file(&rt, alloc, None, b"", "empty")?;
    assert_file(&rt, alloc, None, b"x", "bad short 1")?;
    let whole = body(alloc, 12_288)?;
    assert_file(&rt, alloc, None, &whole, "good 1 92")?;
    let cut = body(alloc, 12_287)?;
    assert_file(&rt, alloc, None, &cut, "bad shortdata 12287 12288")
}

#[test]
fn files_are_shown_by_their_attributes(rt: HostRuntime) -> Result<(), Fail> {
    let alloc = rt.alloc();
    assert_file(&rt, alloc, Some(b""), b"", "bad short 0")?;
    let whole = [0; 4096];
    assert_file(&rt, alloc, Some(METADATA), &whole, "good 1 92")?;
    let cut = [0; 4095];
    assert_file(&rt, alloc, Some(METADATA), &cut, "bad shortdata 4095 4096")
}

/// Where this octet of its metadata is another one, a file is to be shown as bad, with this cause.
fn assert_cause(
    rt: &impl Abort,
    alloc: Global,
    place: usize,
    octet: u8,
    cause: &str,
) -> Result<(), Fail> {
    let mut octets = body(alloc, 12_288)?;
    if let Some(changed) = octets.get_mut(place) {
        *changed = octet;
    }
    let state = format!(in alloc; "bad {cause}")?;
    assert_file(rt, alloc, None, &octets, &state)
}

#[test]
fn each_cause_is_shown(rt: HostRuntime) -> Result<(), Fail> {
    let table = [
        (8, 0x00, "marker 00020304 3d83b4f1"),
        (16, 0x04, "version 4"),
        (19, 0x07, "hmac"),
        (19, 0x04, "notencrypted"),
        (24, 0x01, "headersize 1056768"),
        (26, 0x00, "nopacket"),
        (26, 0x01, "tag1 26"),
        (28, 0x05, "packet 26"),
        (58, 0x07, "packet 57"),
        (80, 0x07, "wrongkey d395309aaad4de07 d395309aaad4de06"),
        (29, 0x08, "cipher 8"),
        (3, 0x01, "toolarge 4294967297"),
    ];
    for (place, octet, cause) in table {
        assert_cause(&rt, rt.alloc(), place, octet, cause)?;
    }
    Ok(())
}

#[test]
fn a_tree_is_listed_in_its_order(rt: HostRuntime) -> Result<(), Fail> {
    let image = b"ECRYIMG1\x00\x00\x00\x04\
        \x00\x01\x00\x01a\x00\x02\x01\x01b\x01\x00\x00\x00\x00\x00\x00\x00\x00\
        \x00\x02\x00\x01c\x00\x01\x01\x02a \x00\x00\x00\x00\x00";
    let wanted = b"ecryptfs-show 1\nd 1 /a\nf 2 /a/b bad short 0\nd 3 /a/c\nf 4 /a%20 empty\nend\n";
    assert_image(&rt, rt.alloc(), image, wanted)
}
