ghost use Rattle.std.specs.Prelude.{◌≡◌, ◌+◌, ◌*◌, ◌≤◌, List, length, IfOk, OnErr};
ghost use Rattle.std.specs.Option.{option_copied};
ghost use Rattle.key_model.specs.SignedKey.{SignedKey};
ghost use Rattle.packet_model.specs.Metadata.{FileMetadata, FileTakesMemory, extent_count};
ghost use Rattle.body_model.specs.declared.content.Content.{Content};
ghost use Rattle.content_model.specs.Content.{IsContent, IsGoodContent};
ghost use Rattle.xattr_meta.specs.FileMeta.{IsFileMeta};

use crate::extents::{EXTENT, plain_text};
use body_model::Content;
use file_header::HeaderError;
use lower_model::Items;
use packet_model::{EXTENT_SIZE, MAX_SIZE};
use packet_set::Ring;
use std::alloc::{AllocError, Global};
use xattr_meta::{FileMeta, read_meta};

/// The content of a lower file with this body and attribute, all of it at once. Memory runs out only where the file isn't empty, and
/// not bad for its fields before the packets or for a first packet that is no tag 3 packet.
pub fn decode_body<R: Ring>(
    alloc: Global,
    body: &[u8],
    attribute: Option<&[u8]>,
    ring: &R,
) -> Result<Content, AllocError>
    ensures content { IfOk result (λ content. IsContent (R.ring ring.now) body.now (option_copied attribute.entry) content) }
    // It has no other content.
    ensures only { IfOk result (λ content. (other : Content)
        → IsContent (R.ring ring.now) body.now (option_copied attribute.entry) other → other ≡ content) }
    ensures memory { OnErr result (FileTakesMemory body.now (option_copied attribute.entry)) }
{
    match read_meta(alloc, body, attribute, body.len() as u64, ring) {
        Ok(None) => Ok(Content::Empty),
        Ok(Some(meta)) => good_content(alloc, body, meta),
        Err(HeaderError::Bad(cause)) => Ok(Content::Bad(cause)),
        Err(HeaderError::Memory) => Err(AllocError),
    }
}

fn good_content(alloc: Global, body: &[u8], meta: FileMeta) -> Result<Content, AllocError>
    requires size { meta.size ≤ MAX_SIZE }
    requires long { meta.data_start + EXTENT_SIZE * extent_count meta.size ≤ length body.now }
    ensures { (ring : List SignedKey) (found : FileMetadata) → IsFileMeta ring meta found
        → IfOk result (λ content. IsGoodContent ring found body.now content) }
{
    let FileMeta {
        size,
        meta_place: _,
        data_start,
        fek,
    } = meta;
    let start = data_start as usize;
    let size = size as usize;
    let extents = &body[start..start + EXTENT * size.div_ceil(EXTENT)];
    let plain = plain_text(alloc, fek.octets(), extents, size);
    fek.spend();
    Ok(Content::Good(Items::from_vec(plain?)))
}
