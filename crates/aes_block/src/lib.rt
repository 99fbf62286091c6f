//! The AES block cipher (FIPS 197) for keys of 16 bytes, by tables of words.
//!
//! The tables are proved against the formulas of the standard, and the rounds on words against its rounds on bytes.
#![tactic(auto)]

mod cipher;
mod inverse;
mod keys;
mod round_keys;
mod tables;
mod words;

pub use round_keys::RoundKeys;

#[cfg(test)]
mod tests {
    use crate::RoundKeys;

    // FIPS 197, C.1.
    #[test]
    fn fips_197_c_1_both_ways(rt: HostRuntime) {
        let keys = RoundKeys::new(&[
            0x00, 0x01, 0x02, 0x03, 0x04, 0x05, 0x06, 0x07, 0x08, 0x09, 0x0a, 0x0b, 0x0c, 0x0d,
            0x0e, 0x0f,
        ]);
        let plain = [
            0x00, 0x11, 0x22, 0x33, 0x44, 0x55, 0x66, 0x77, 0x88, 0x99, 0xaa, 0xbb, 0xcc, 0xdd,
            0xee, 0xff,
        ];
        let cipher = [
            0x69, 0xc4, 0xe0, 0xd8, 0x6a, 0x7b, 0x04, 0x30, 0xd8, 0xcd, 0xb7, 0x80, 0x70, 0xb4,
            0xc5, 0x5a,
        ];
        let mut block = plain;
        keys.encrypt(&mut block);
        assert_eq!(rt; block, cipher);
        keys.decrypt(&mut block);
        assert_eq!(rt; block, plain);
    }

    // The last round key of FIPS 197, A.1.
    #[test]
    fn fips_197_a_1_last_round_key(rt: HostRuntime) {
        let keys = RoundKeys::new(&[
            0x2b, 0x7e, 0x15, 0x16, 0x28, 0xae, 0xd2, 0xa6, 0xab, 0xf7, 0x15, 0x88, 0x09, 0xcf,
            0x4f, 0x3c,
        ]);
        let last = [
            0xd0, 0x14, 0xf9, 0xa8, 0xc9, 0xee, 0x25, 0x89, 0xe1, 0x3f, 0x0c, 0xc8, 0xb6, 0x63,
            0x0c, 0xa6,
        ];
        assert_eq!(rt; keys.round_key(10), last);
    }
}
