ghost use Rattle.std.specs.Prelude.{◌≡◌, length, IfOk};
ghost use Rattle.packet_model.specs.Packet.{tag11, console};

use packet_length::write_length;
use packet_model::{TAG11, Tag11};
use std::alloc::{AllocError, Global};

/// The octets of a tag 11 packet with the format `b`, the name `_CONSOLE` and no date (cf. RFC 2440, 5.9).
pub fn write_tag11(alloc: Global, packet: &Tag11) -> Result<Vec<u8>, AllocError>
    ensures { IfOk result (λ octets. octets.items ≡ tag11 console packet.now) }
{
    let (len, used) = write_length(22);
    let mut out = Vec::with_capacity(alloc, 24)?;
    out.push(TAG11)?;
    out.extend_from_slice(&len[..used])?;
    out.extend_from_slice(b"b\x08_CONSOLE\0\0\0\0")?;
    out.extend_from_slice(&packet.signature)?;
    Ok(out)
}
