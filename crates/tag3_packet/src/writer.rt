ghost use Rattle.std.specs.Prelude.{◌≡◌, ◌≤◌, length, IfOk};
ghost use Rattle.packet_model.specs.Packet.{tag3};

use packet_length::write_length;
use packet_model::{MAX_WRAPPED, TAG3, Tag3};
use std::alloc::{AllocError, Global};

/// The octets of a tag 3 packet (RFC 2440, 5.3).
pub fn write_tag3(alloc: Global, packet: &Tag3) -> Result<Vec<u8>, AllocError>
    requires { length packet.now.wrapped ≤ MAX_WRAPPED }
    ensures { IfOk result (λ octets. octets.items ≡ tag3 packet.now) }
{
    let wrapped = packet.wrapped.as_slice();
    let (len, used) = write_length((13 + wrapped.len()) as u16);
    let mut out = Vec::with_capacity(alloc, 16 + wrapped.len())?;
    out.push(TAG3)?;
    out.extend_from_slice(&len[..used])?;
    out.extend_from_slice(&[4, packet.cipher, 3, 1])?;
    out.extend_from_slice(&packet.salt)?;
    out.push(packet.count)?;
    out.extend_from_slice(wrapped)?;
    Ok(out)
}
