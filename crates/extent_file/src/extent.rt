// One extent under its file key.
ghost use Rattle.std.specs.Prelude.{◌≡◌, ◌^◌, ◌<◌};
ghost use Rattle.body_model.specs.Format.{IsExtent};
ghost use Rattle.content_model.specs.Extents.{plain_extent};

use crate::extents::are_octets;
use aes_block::RoundKeys;
use cbc_mode::{cbc_decrypt, cbc_encrypt};
use extent_iv::{extent_iv, root_iv};
use lower_tree::Extent;

/// How many blocks of the cipher an extent has.
pub const EXTENT_BLOCKS: u64 = 256;

/// Encrypts the extent with this number in place.
pub fn seal_extent(key: &[u8; 16], number: u64, extent: &mut Extent)
    requires { number < 10 ^ 15 }
    ensures sealed { plain_extent key.now number extent.new ≡ extent.old }
    ensures extent { IsExtent extent.new }
{
    let iv = extent_iv(&root_iv(key), number);
    cbc_encrypt(&RoundKeys::new(key), &iv, extent);
    are_octets(extent);
}

/// Decrypts the extent with this number in place.
pub fn unseal_extent(key: &[u8; 16], number: u64, extent: &mut Extent)
    requires { number < 10 ^ 15 }
    ensures unsealed { extent.new ≡ plain_extent key.now number extent.old }
    ensures extent { IsExtent extent.new }
{
    let iv = extent_iv(&root_iv(key), number);
    cbc_decrypt(&RoundKeys::new(key), &iv, extent);
    are_octets(extent);
}
