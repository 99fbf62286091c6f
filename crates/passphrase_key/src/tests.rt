use super::*;
use std::test::Fail;

const SALT: [u8; 8] = [0x00, 0x11, 0x22, 0x33, 0x44, 0x55, 0x66, 0x77];

// The key that another implementation gives for the passphrase `test`.
const KEY_OF_TEST: [u8; 64] = [
    0x58, 0x11, 0x66, 0x05, 0x27, 0x75, 0x20, 0xb3, 0xfa, 0x13, 0x15, 0x49, 0x7f, 0x20, 0x89, 0x51,
    0x4d, 0x53, 0x10, 0x0b, 0x08, 0x09, 0x6e, 0xe8, 0xab, 0x2c, 0x75, 0x2c, 0x96, 0xeb, 0xfc, 0x7e,
    0x8d, 0x27, 0x0f, 0xce, 0x37, 0x0c, 0x29, 0xb1, 0xaf, 0xe1, 0xcd, 0xe7, 0x1e, 0xc6, 0x21, 0x8c,
    0x6f, 0xa6, 0x2b, 0x75, 0x00, 0xb3, 0xb1, 0x4e, 0x74, 0x56, 0xb6, 0xf5, 0x3e, 0xb3, 0x85, 0x80,
];

fn signature_of(passphrase: &[u8]) -> Result<[u8; 8], PassFault> {
    let (kek, signature) = derive(&SALT, passphrase)?;
    kek.spend();
    Ok(signature)
}

#[test]
fn derives_the_key_of_another_implementation(rt: HostRuntime) -> Result<(), Fail> {
    let (kek, signature) = derive(&SALT, b"test")?;
    assert_eq!(rt; *kek.octets(), KEY_OF_TEST);
    assert_eq!(rt; signature, 0xd395309aaad4de06u64.to_be_bytes());
    kek.spend();
    Ok(())
}

#[test]
fn signs_as_ecryptfs_utils(rt: HostRuntime) {
    let signature = 0x4b8ecbaf2bdd6851u64.to_be_bytes();
    assert_eq!(rt; signature_of(b"kelp-spade-2026"), Ok(signature));
}

#[test]
fn takes_1_to_64_octets(rt: HostRuntime) {
    assert_eq!(rt; signature_of(b""), Err(PassFault::Empty));
    let one = 0xa216278e6e397a04u64.to_be_bytes();
    assert_eq!(rt; signature_of(b"a"), Ok(one));
    let longest = 0x0e3b6f146f248ef0u64.to_be_bytes();
    assert_eq!(rt; signature_of(&[b'a'; 64]), Ok(longest));
    assert_eq!(rt; signature_of(&[b'a'; 65]), Err(PassFault::Long(65)));
}
