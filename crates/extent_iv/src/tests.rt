use super::*;

#[test]
fn gives_the_ivs_of_another_implementation(rt: HostRuntime) {
    let key = 0x000102030405060708090a0b0c0d0e0fu128.to_be_bytes();
    let root = root_iv(&key);
    assert_eq!(rt; root, 0x1ac1ef01e96caf1be0d329331a4fc2a8u128.to_be_bytes());
    let first = extent_iv(&root, 0);
    assert_eq!(rt; first, 0xcd096e1db464e9b4c91e51419090606bu128.to_be_bytes());
    let two_digits = extent_iv(&root, 12);
    assert_eq!(rt;
        two_digits,
        0xd2cdd65b6fc4ad63f6b3f45e5eb614ddu128.to_be_bytes()
    );
    let fifteen_digits = extent_iv(&root, 999_999_999_999_999);
    assert_eq!(rt;
        fifteen_digits,
        0xd02b11fe773a55f3351a66c9e47a8ea1u128.to_be_bytes()
    );
}
