use crate::{
    LONGEST_CODED_NAME, LONGEST_CODED_OCTETS, LONGEST_PLAIN_NAME, NameError, NameFault, NameForm,
    PlainNames, Tag70, coded_names_are_read_again,
};
use lower_model::Items;
use name_form::CodingFault;
use secret_key::{Fnek, Kek};
use std::alloc::{AllocError, Global};
use std::test::Fail;

// The key of the passphrase `kelp-spade-2026` with the salt 00 11 .. 77, by another implementation.
const KEY: [u8; 64] = [
    0x0e, 0x5c, 0x29, 0xbe, 0xca, 0x5c, 0xf2, 0xa3, 0xaa, 0x5b, 0x5d, 0xc1, 0x9e, 0x60, 0xc3, 0x5a,
    0x5a, 0x80, 0x01, 0xe0, 0xc9, 0xdc, 0x5c, 0xed, 0x8a, 0x30, 0x84, 0xaa, 0x46, 0xb5, 0xbb, 0xd8,
    0x6a, 0x45, 0xcb, 0x27, 0x67, 0x13, 0x50, 0xb1, 0x39, 0x7b, 0xde, 0x7e, 0x56, 0x0b, 0x47, 0x6e,
    0x43, 0xa5, 0x91, 0x13, 0xd6, 0x49, 0x49, 0x00, 0x01, 0x64, 0x01, 0xbc, 0x07, 0xc4, 0x9d, 0x13,
];

const SIGNATURE: [u8; 8] = [0x4b, 0x8e, 0xcb, 0xaf, 0x2b, 0xdd, 0x68, 0x51];

// Names, and the letters of the lower names that the eCryptfs of Linux 6.1 wrote for them.
const LINUX: [(&[u8], &[u8]); 5] = [
    (
        b"none",
        b"FWZ9Xgij8xpcIET1BT1sVYFpWAbT0vwPx9pE-4n-syPsWI4SItkDoQYmC---",
    ),
    (
        b"one",
        b"FWZ9Xgij8xpcIET1BT1sVYFpWAbT0vwPx9pE7UrNU6Nwj8HjuL225Hl4l---",
    ),
    (
        b"sub",
        b"FWZ9Xgij8xpcIET1BT1sVYFpWAbT0vwPx9pEDfwwCMvLcWRPCo3jDvkmI---",
    ),
    (
        b"more",
        b"FWZ9Xgij8xpcIET1BT1sVYFpWAbT0vwPx9pErZCBKTjgqpV3hZvw5SMjyE--",
    ),
    (
        &[0xc5, 0xbe],
        b"FWZ9Xgij8xpcIET1BT1sVYFpWAbT0vwPx9pEqkJIV5KD3Be-e5nzp7Ozlk--",
    ),
];

// Letters, and why they hold no name.
const FAULTS: [(&[u8], NameFault); 14] = [
    (b"", NameFault::Size),
    (b"F", NameFault::Coding(CodingFault::Length(1))),
    (b"FU-!", NameFault::Coding(CodingFault::Letter(3, 0x21))),
    (b"0000", NameFault::Tag(8)),
    (b"FU--", NameFault::Size),
    (
        b"FWZ9Xgij8xpcIES-fglIT8nz2jxz179jxFOskufnLe0PoORU2vhX7.dRUk------",
        NameFault::Size,
    ),
    (
        b"FWZ9Xgij8xpcIES-fglIT8nz2jxz179jxFOskufnLe0PoORU2vhX7.dRUk-.",
        NameFault::Size,
    ),
    (b"FVZ9Xgij8xpcIET1ejBSc7jFdq-HiqAY4Zq1", NameFault::Size),
    (
        b"FWZ9Xgij8xpcI-S-fglIT8nz2jxz179jxFOskufnLe0PoORU2vhX7.dRUk--",
        NameFault::WrongKey([0x4b, 0x8e, 0xcb, 0xaf, 0x2b, 0xdd, 0x68, 0x50]),
    ),
    (
        b"FWZ9Xgij8xpcIEW-fglIT8nz2jxz179jxFOskufnLe0PoORU2vhX7.dRUk--",
        NameFault::Cipher(8),
    ),
    (
        b"FWZ9Xgij8xpcIES-fglIT8nz2jxz179jxFOsU8vAJ5mgzl9zTkmGvzIKi---",
        NameFault::NoZero,
    ),
    (
        b"FWZ9Xgij8xpcIEQ3iobKAtOj8iVlIqxQxUtKU8vAJ5mgzl9zTkmGvzIKi---",
        NameFault::Lead(15),
    ),
    (
        b"FWZ9Xgij8xpcIES-fglIT8nz2jxz179jxFOs.Ph7pXCKfmfcQJBjLDMCJU--",
        NameFault::EmptyName,
    ),
    (
        b"FWZ9Xgij8xpcIES-fglIT8nz2jxz179jxFOsIHlTTlvZ82XPo228unKW8U--",
        NameFault::BadName,
    ),
];

// The lengths of names, and of their lower names.
const LENGTHS: [(usize, usize); 7] = [
    (1, 84),
    (15, 84),
    (16, 104),
    (17, 104),
    (142, 252),
    (143, 252),
    (144, 276),
];

fn form() -> Tag70 {
    Tag70::new(Fnek::new(Kek::new(KEY), SIGNATURE))
}

fn read(alloc: Global, lower: &[u8]) -> Result<Items<u8>, NameError> {
    let form = form();
    let name = form.read(alloc, lower);
    form.end();
    name
}

fn written(alloc: Global, name: &[u8]) -> Result<Items<u8>, AllocError> {
    let form = form();
    let lower = if name.is_empty() || name.len() > LONGEST_CODED_OCTETS {
        Ok(Items::new(alloc))
    } else {
        form.write_coded(alloc, name)
    };
    form.end();
    lower
}

fn prefixed(alloc: Global, letters: &[u8]) -> Result<Vec<u8>, AllocError> {
    let mut lower = Vec::from_slice(alloc, b"ECRYPTFS_FNEK_ENCRYPTED.")?;
    lower.extend_from_slice(letters)?;
    Ok(lower)
}

#[test]
fn reads_and_writes_names_of_linux(rt: HostRuntime) -> Result<(), Fail> {
    let alloc = rt.alloc();
    for (name, letters) in LINUX {
        let lower = prefixed(alloc, letters)?;
        assert_eq!(rt; read(alloc, &lower)?.as_slice(), name);
        assert_eq!(rt; written(alloc, name)?.as_slice(), lower.as_slice());
    }
    Ok(())
}

#[test]
fn tells_each_fault(rt: HostRuntime) -> Result<(), Fail> {
    for (letters, fault) in FAULTS {
        let lower = prefixed(rt.alloc(), letters)?;
        let is_fault = matches!(read(rt.alloc(), &lower), Err(NameError::Fault(f)) if f == fault);
        assert!(rt; is_fault, "{fault:?}");
    }
    Ok(())
}

#[test]
fn writes_names_of_each_length(rt: HostRuntime) -> Result<(), Fail> {
    let alloc = rt.alloc();
    for (length, lower_length) in LENGTHS {
        let name = vec![in alloc; b'a'; length]?;
        let lower = written(alloc, &name)?;
        assert_eq!(rt; lower.len(), lower_length);
        assert_eq!(rt; read(alloc, lower.as_slice())?.as_slice(), name.as_slice());
    }
    Ok(())
}

// The lead of this lower name is 28 times the letter A, and the octets behind it of the second are no name.
#[test]
fn reads_any_lead_and_any_octets(rt: HostRuntime) -> Result<(), Fail> {
    let alloc = rt.alloc();
    let lower = prefixed(
        alloc,
        b"FWZ9Xgij8xpcIES-fglIT8nz2jxz179jxFOskufnLe0PoORU2vhX7.dRUk--",
    )?;
    assert_eq!(rt; read(alloc, &lower)?.as_slice(), b"foo".as_slice());
    let dots = prefixed(
        alloc,
        b"FWZ9Xgij8xpcIES-fglIT8nz2jxz179jxFOsIHlTTlvZ82XPo228unKW8U--",
    )?;
    let form = form();
    let octets = form.read_coded(alloc, &dots);
    let plain = form.read(alloc, b"plain");
    form.end();
    assert_eq!(rt; octets?.as_slice(), b"..".as_slice());
    assert_eq!(rt; plain?.as_slice(), b"plain".as_slice());
    Ok(())
}

#[test]
fn limits_names(rt: HostRuntime) {
    let form = form();
    let limit = form.limit();
    form.end();
    assert_eq!(rt; limit, LONGEST_CODED_NAME);
    assert_eq!(rt; PlainNames.limit(), LONGEST_PLAIN_NAME);
    coded_names_are_read_again();
}
