// The electronic codebook mode (SP 800-38A, 6.1).
ghost use Rattle.std.specs.Prelude.{◌≡◌, ◌%◌, length};
ghost use Rattle.cipher_model.specs.Ecb.{IsEcb};

use crate::blocks::{block_at, put_block};
use aes_block::RoundKeys;

/// Encrypts the blocks of `octets` in place, each by itself (SP 800-38A, 6.1).
pub fn ecb_encrypt(keys: &RoundKeys, octets: &mut [u8])
    requires { length octets.old % 16 ≡ 0 }
    ensures { IsEcb keys.now octets.old octets.new }
{
    'each: for i in 0..octets.len() / 16 {
        let mut block = block_at(octets, i);
        keys.encrypt(&mut block);
        put_block(octets, i, &block);
    }
}

/// Decrypts the blocks of `octets` in place, each by itself (SP 800-38A, 6.1).
pub fn ecb_decrypt(keys: &RoundKeys, octets: &mut [u8])
    requires { length octets.old % 16 ≡ 0 }
    ensures { IsEcb keys.now octets.new octets.old }
{
    'each: for i in 0..octets.len() / 16 {
        let mut block = block_at(octets, i);
        keys.decrypt(&mut block);
        put_block(octets, i, &block);
    }
}
