ghost use Rattle.std.specs.Prelude.{◌≡◌, ◌≤◌, ◌+◌, ◌*◌, ℕ, List, length, IfOk, IfSome, IsTrue};
ghost use Rattle.std.specs.Option.{option_copied};
ghost use Rattle.answer_model.specs.Answer.{GivesBy};
ghost use Rattle.key_model.specs.SignedKey.{SignedKey, signatures};
ghost use Rattle.packet_model.specs.MetadataError.{cause_of};
ghost use Rattle.packet_model.specs.Metadata.{FileHeader, FileTakesMemory, HeaderTakesMemory, extent_count, is_meta_size, metadata, metadata_in, with_body};
ghost use Rattle.file_header.specs.Meta.{IsMeta};
ghost use Rattle.xattr_meta.specs.FileMeta.{AreFileMeta, IsFileMeta, IsHead};

use file_header::{HeaderError, Meta, read_header};
use packet_model::{BadCause, EXTENT_SIZE, MAX_SIZE, MetaPlace};
use packet_set::Ring;
use secret_key::Fek;
use std::alloc::Global;

/// What the metadata of a good file says. Its file key has to be spent.
#[derive(Debug)]
pub struct FileMeta {
    /// The size of the file's content, in octets.
    pub size: u64,
    /// Where the metadata stands.
    pub meta_place: MetaPlace,
    /// The offset in the body at which the extents begin.
    pub data_start: u64,
    /// The file key.
    pub fek: Fek,
}

/// The metadata of a file with this attribute and a body of `len` octets, of which `head` has the first 4,096, or all; `None`
/// for an empty file. With an attribute, `head` isn't looked at. The causes come in their order, `ShortData` last. Memory runs out
/// only where [`read_header`] takes some.
pub fn read_meta<R: Ring>(
    alloc: Global,
    head: &[u8],
    attribute: Option<&[u8]>,
    len: u64,
    ring: &R,
) -> Result<Option<FileMeta>, HeaderError>
    ensures read { (body : List ℕ) → IsHead head.now (option_copied attribute.entry) len body
        → GivesBy (AreFileMeta (R.ring ring.now)) cause_of (FileTakesMemory head.now (option_copied attribute.entry)) result
        (metadata (signatures (R.ring ring.now)) body (option_copied attribute.entry)) }
    ensures size { IfOk result (λ found. IfSome found (λ meta. meta.size ≤ MAX_SIZE)) }
    ensures long { IfOk result (λ found. IfSome found (λ meta. meta.data_start + EXTENT_SIZE * extent_count meta.size ≤ len)) }
{
    match attribute {
        Some(octets) => Ok(Some(file_meta_in(alloc, octets, MetaPlace::Attribute, len, ring)?)),
        None if len == 0 => Ok(None),
        None => Ok(Some(file_meta_in(alloc, head, MetaPlace::Header, len, ring)?)),
    }
}

/// The metadata in these octets, of a file with a body of `len` octets, with the causes and the want of memory of [`read_meta`].
pub fn file_meta_in<R: Ring>(
    alloc: Global,
    octets: &[u8],
    meta_place: MetaPlace,
    len: u64,
    ring: &R,
) -> Result<FileMeta, HeaderError>
    ensures read { (body : List ℕ) → length body ≡ len
        → GivesBy (IsFileMeta (R.ring ring.now)) cause_of (HeaderTakesMemory meta_place octets.now) result
        (metadata_in meta_place (signatures (R.ring ring.now)) octets.now body) }
    ensures size { IfOk result (λ meta. meta.size ≤ MAX_SIZE) }
    ensures long { IfOk result (λ meta. meta.data_start + EXTENT_SIZE * extent_count meta.size ≤ len) }
{
    let meta = read_header(alloc, octets, meta_place, ring)?;
    long_enough(meta, meta_place, len)
}

// The metadata, if a body of `len` octets is long enough for it.
fn long_enough(meta: Meta, meta_place: MetaPlace, len: u64) -> Result<FileMeta, HeaderError>
    requires size { meta.size ≤ MAX_SIZE }
    requires meta_size { IsTrue (is_meta_size meta_place meta.meta_size) }
    ensures read { (ring : List SignedKey) (body : List ℕ) (header : FileHeader) → length body ≡ len → IsMeta ring meta header
        → GivesBy (IsFileMeta ring) cause_of ⊥ result (with_body meta_place body header) }
    ensures size { IfOk result (λ meta. meta.size ≤ MAX_SIZE) }
    ensures long { IfOk result (λ meta. meta.data_start + EXTENT_SIZE * extent_count meta.size ≤ len) }
{
    let Meta {
        size,
        flags: _,
        meta_size,
        fek,
    } = meta;
    let data_start = match meta_place {
        MetaPlace::Header => meta_size,
        MetaPlace::Attribute => 0,
    };
    let needed = data_start + EXTENT_SIZE * size.div_ceil(EXTENT_SIZE);
    if len < needed {
        fek.spend();
        return Err(HeaderError::Bad(BadCause::ShortData(len, needed)));
    }
    Ok(FileMeta {
        size,
        meta_place,
        data_start,
        fek,
    })
}
