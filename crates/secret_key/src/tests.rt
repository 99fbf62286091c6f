use super::*;
use std::test::Fail;

// The random octets, the node, and the file key and mark that another implementation of ChaCha20 gives.
const DRAWN: [([u8; 32], u32, u128, u32); 4] = [
    ([0; 32], 0, 0x76b8e0ada0f13d90405d6ae55386bd28, 0xb819d2bd),
    ([0; 32], 1, 0xef3fdfd6c61578fbf5cf35bd3dd33b80, 0x34166309),
    (
        [0; 32],
        4095,
        0x05ce8cf53d7b26e26eb73849176f5a4b,
        0x85e097d9,
    ),
    (COUNTED, 1, 0x2fa4f10250808e89a25231e50fdf6ee0, 0x215fc671),
];

const COUNTED: [u8; 32] = [
    0, 1, 2, 3, 4, 5, 6, 7, 8, 9, 10, 11, 12, 13, 14, 15, 16, 17, 18, 19, 20, 21, 22, 23, 24, 25,
    26, 27, 28, 29, 30, 31,
];

#[test]
fn draws_the_key_and_mark_of_a_node(rt: HostRuntime) {
    for (random, node, key, mark) in DRAWN {
        let source = KeySource::new(random);
        let fek = source.fek(node);
        assert_eq!(rt; *fek.octets(), key.to_be_bytes(), "at node {node}");
        assert_eq!(rt; source.mark(node), mark, "at node {node}");
        fek.spend();
    }
}

#[test]
fn lends_a_file_key(rt: HostRuntime) {
    let fek = Fek::new([7; 16]);
    let loan = fek.loan();
    fek.spend();
    assert_eq!(rt; *loan.octets(), [7; 16]);
    loan.spend();
}

#[test]
fn signs_a_name_key(rt: HostRuntime) {
    let kek = Kek::new([9; 64]);
    assert_eq!(rt; *kek.octets(), [9; 64]);
    let fnek = Fnek::new(kek, [1, 2, 3, 4, 5, 6, 7, 8]);
    assert_eq!(rt; *fnek.octets(), [9; 64]);
    assert_eq!(rt; fnek.signature(), [1, 2, 3, 4, 5, 6, 7, 8]);
    fnek.spend();
}

#[test]
fn prints_names_alone(rt: HostRuntime) -> Result<(), Fail> {
    let fek = Fek::new([7; 16]);
    let loan = fek.loan();
    let fnek = Fnek::new(Kek::new([9; 64]), [1; 8]);
    let kek = Kek::new([9; 64]);
    let source = KeySource::new([5; 32]);
    let text = format!(in rt.alloc(); "{fek:?} {loan:?} {kek:?} {fnek:?} {source:?}");
    fek.spend();
    loan.spend();
    kek.spend();
    fnek.spend();
    assert_eq!(rt; text?.as_str(), "Fek FekLoan Kek Fnek KeySource");
    Ok(())
}
