ghost use Rattle.std.specs.Prelude.{◌≡◌, ◌<◌, length, min};
ghost use Rattle.packet_model.specs.declared.layout.TheConstants.{SET_END};

use crate::Ecryptfs;
use lower_tree::{BodyFormat, Extent, Items, OpenFault, Opened, Steps};
use packet_model::{BadCause, MetaPlace};
use secret_key::{Fek, Kek, KeySource};
use std::alloc::Global;
use std::marker::Brand;
use std::process::Abort;
use std::sync::ledger::{Blank, Ledger};
use std::test::Fail;

// What OpenSSL encrypts `page()` to as extent 12, with the IV by Python's hashlib: the first and the last block. The file key is 00 11 22 .. ff.
const FIRST_BLOCK: [u8; 16] = [
    0x11, 0xf5, 0xda, 0xdb, 0x9d, 0x4a, 0x51, 0xc3, 0xc9, 0xab, 0x60, 0x89, 0xc5, 0xdc, 0x47, 0xfa,
];

const LAST_BLOCK: [u8; 16] = [
    0x52, 0x51, 0x6a, 0xda, 0x1d, 0x4a, 0xc9, 0xe3, 0x73, 0x3d, 0xf4, 0xce, 0x71, 0x1e, 0xfc, 0xf0,
];

// The metadata of node 1 in the attribute, with coded names, and the head of that of node 4,095, without: the keys and marks are by OpenSSL's
// ChaCha20, the wrapped keys by its AES.
const NODE_1: [u8; 81] = [
    0x00, 0x00, 0x00, 0x00, 0x00, 0x00, 0x00, 0x00, 0x21, 0x5f, 0xc6, 0x71, 0x1d, 0xde, 0x71, 0x84,
    0x03, 0x00, 0x00, 0x0e, 0x00, 0x00, 0x10, 0x00, 0x00, 0x02, 0x8c, 0x1d, 0x04, 0x07, 0x03, 0x01,
    0x00, 0x11, 0x22, 0x33, 0x44, 0x55, 0x66, 0x77, 0x60, 0xfa, 0xe2, 0x10, 0xfa, 0xf5, 0x88, 0x6d,
    0x90, 0x97, 0xd6, 0xb2, 0x58, 0xf4, 0x04, 0xf1, 0xd5, 0xed, 0x16, 0x62, 0x08, 0x5f, 0x43, 0x4f,
    0x4e, 0x53, 0x4f, 0x4c, 0x45, 0x00, 0x00, 0x00, 0x00, 0x01, 0x02, 0x03, 0x04, 0x05, 0x06, 0x07,
    0x08,
];

const KEY_1: u128 = 0x2fa4f10250808e89a25231e50fdf6ee0;

const NODE_4095: [u8; 81] = [
    0x00, 0x00, 0x00, 0x00, 0x00, 0x00, 0x00, 0x00, 0x63, 0xaa, 0x76, 0x54, 0x5f, 0x2b, 0xc1, 0xa1,
    0x03, 0x00, 0x00, 0x02, 0x00, 0x00, 0x10, 0x00, 0x00, 0x02, 0x8c, 0x1d, 0x04, 0x07, 0x03, 0x01,
    0x00, 0x11, 0x22, 0x33, 0x44, 0x55, 0x66, 0x77, 0x60, 0x64, 0x19, 0xc3, 0x9c, 0xbd, 0xe7, 0xd0,
    0xee, 0xa5, 0x83, 0x0d, 0x74, 0xf2, 0x88, 0x06, 0x65, 0xed, 0x16, 0x62, 0x08, 0x5f, 0x43, 0x4f,
    0x4e, 0x53, 0x4f, 0x4c, 0x45, 0x00, 0x00, 0x00, 0x00, 0x01, 0x02, 0x03, 0x04, 0x05, 0x06, 0x07,
    0x08,
];

const KEY_4095: u128 = 0xa732bcf94961ccd1590b77b3ed217545;

// The octets from 0 on.
fn counted<const N: usize>() -> [u8; N] {
    let mut octets = [0; N];
    for i in 0..N {
        octets[i] = (i % 256) as u8;
    }
    octets
}

fn page() -> Extent {
    let mut octets = [0; 4096];
    for i in 0..4096usize {
        octets[i] = ((i * 7 + i / 256) % 256) as u8;
    }
    octets
}

fn mount(names_coded: bool, meta_place: MetaPlace) -> Ecryptfs {
    Ecryptfs::new(
        Kek::new(counted()),
        [1, 2, 3, 4, 5, 6, 7, 8],
        [0x00, 0x11, 0x22, 0x33, 0x44, 0x55, 0x66, 0x77],
        KeySource::new(counted()),
        names_coded,
        meta_place,
    )
}

// What is opened, with its key spent.
#[derive(Drop)]
struct Values {
    key: [u8; 16],
    size: u64,
    data_start: u64,
    metadata: Items<u8>,
}

fn values_of(format: &Ecryptfs, opened: Opened<Fek>) -> Values {
    let Opened {
        key,
        size,
        data_start,
        meta_place: _,
        metadata,
    } = opened;
    let octets = *key.octets();
    format.end_key(key);
    Values {
        key: octets,
        size,
        data_start,
        metadata,
    }
}

fn open<L: Ledger>(
    alloc: Global,
    format: &Ecryptfs,
    head: &[u8],
    attribute: Option<&[u8]>,
    len: u64,
    steps: &mut Steps<L>,
) -> Result<Values, OpenFault>
    requires { length head.now ≡ min len SET_END }
{
    Ok(values_of(format, format.open(alloc, head, attribute, len, steps)?))
}

fn seals_and_unseals<L: Ledger>(rt: &impl Abort, format: &Ecryptfs, steps: &mut Steps<L>) {
    let key = Fek::new(0x00112233445566778899aabbccddeeffu128.to_be_bytes());
    let mut extent = page();
    format.seal(&key, 12, &mut extent, steps);
    assert_eq!(rt; &extent[..16], FIRST_BLOCK.as_slice());
    assert_eq!(rt; &extent[4080..], LAST_BLOCK.as_slice());
    let loan = format.lend(&key);
    assert!(rt; format.same(&key, &loan));
    let mut lent = extent;
    Ecryptfs::unseal_lent(&loan, 12, &mut lent);
    assert_eq!(rt; lent, page());
    format.unseal(&key, 12, &mut extent, steps);
    assert_eq!(rt; extent, page());
    Ecryptfs::end_loan(loan);
    format.end_key(key);
}

// A new file is opened again as it was made.
fn new_in_the_attribute<L: Ledger>(
    rt: &impl Abort,
    alloc: Global,
    format: &Ecryptfs,
    steps: &mut Steps<L>,
) -> Result<(), Fail> {
    let new = values_of(format, format.new_file(alloc, 1, steps)?);
    let octets = new.metadata.as_slice();
    assert_eq!(rt; octets, NODE_1.as_slice());
    assert_eq!(rt; new.key, KEY_1.to_be_bytes());
    let Ok(again) = open(alloc, format, &[], Some(octets), 0, steps) else {
        panic!(rt; "a new file")
    };
    assert_eq!(rt; again.metadata.as_slice(), NODE_1.as_slice());
    assert_eq!(rt; again.key, new.key);
    Ok(())
}

fn new_in_the_header<L: Ledger>(
    rt: &impl Abort,
    alloc: Global,
    format: &Ecryptfs,
    steps: &mut Steps<L>,
) -> Result<(), Fail> {
    let new = values_of(format, format.new_file(alloc, 4095, steps)?);
    let mut octets = [0; 8192];
    octets[..81].copy_from_slice(&NODE_4095);
    assert_eq!(rt; new.metadata.as_slice(), octets.as_slice());
    assert_eq!(rt; new.key, KEY_4095.to_be_bytes());
    let Ok(again) = open(alloc, format, &octets[..4096], None, 8192, steps) else {
        panic!(rt; "a new file")
    };
    assert!(rt; again.metadata.is_empty());
    assert_eq!(rt; (again.size, again.data_start), (0, 8192));
    assert_eq!(rt; again.key, new.key);
    Ok(())
}

fn refuses<L: Ledger>(rt: &impl Abort, alloc: Global, format: &Ecryptfs, steps: &mut Steps<L>) {
    let mut sized = NODE_1;
    sized[7] = 1;
    let Err(fault) = open(alloc, format, &[0; 4095], Some(&sized), 4095, steps) else {
        panic!(rt; "a cut file")
    };
    assert_eq!(rt; fault, OpenFault::Bad(BadCause::ShortData(4095, 4096)));
    let Err(fault) = open(alloc, format, &[], None, 0, steps) else {
        panic!(rt; "an empty file")
    };
    assert_eq!(rt; fault, OpenFault::Bad(BadCause::Short(0)));
}

fn works<L: Ledger>(rt: &impl Abort, alloc: Global, blank: Blank) -> Result<(), Fail>
    requires name { blank.name ≡ L.name }
    requires parts { blank.parts ≡ L.parts }
    requires some { 0 < L.parts }
{
    let (book, share) = blank.open::<L>();
    let mut steps = Steps::new(book, share);
    let format = mount(true, MetaPlace::Attribute);
    seals_and_unseals(rt, &format, &mut steps);
    refuses(rt, alloc, &format, &mut steps);
    let in_attribute = new_in_the_attribute(rt, alloc, &format, &mut steps);
    format.end();
    in_attribute?;
    let format = mount(false, MetaPlace::Header);
    let in_header = new_in_the_header(rt, alloc, &format, &mut steps);
    format.end();
    in_header
}

#[test]
fn works_as_another_implementation(rt: HostRuntime) -> Result<(), Fail> {
    works::<Brand>(&rt, rt.alloc(), Blank::new(1))
}
