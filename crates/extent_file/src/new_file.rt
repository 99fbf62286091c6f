// The metadata of a new file.
ghost use Rattle.std.specs.Prelude.{◌≡◌, ◌+◌};
ghost use Rattle.packet_model.specs.declared.layout.TheConstants.{ENCRYPTED_FLAG};
ghost use Rattle.content_model.specs.Ecryptfs.{names_flag, new_start as start_of, place_flag};

use content_model::{ATTRIBUTE_FLAG, NAMES_FLAG};
use packet_model::{ENCRYPTED_FLAG, MIN_META_SIZE, MetaPlace};

/// Where the data of a new file begins in its body.
pub fn new_start(meta_place: MetaPlace) -> u64
    ensures { result ≡ start_of meta_place }
{
    match meta_place {
        MetaPlace::Header => MIN_META_SIZE,
        MetaPlace::Attribute => 0,
    }
}

/// The flags of a new file.
pub fn new_flags(meta_place: MetaPlace, names_coded: bool) -> u32
    ensures { result ≡ ENCRYPTED_FLAG + place_flag meta_place + names_flag names_coded }
{
    let place = match meta_place {
        MetaPlace::Header => 0,
        MetaPlace::Attribute => ATTRIBUTE_FLAG,
    };
    let names = if names_coded { NAMES_FLAG } else { 0 };
    ENCRYPTED_FLAG + place + names
}
