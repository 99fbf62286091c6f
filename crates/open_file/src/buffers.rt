ghost use Rattle.std.specs.Prelude.{◌≡◌, ◌+◌, ◌<◌, ◌≤◌, ◌*◌, ◌^◌, true, ℕ, length, take, drop};
ghost use Rattle.packet_model.specs.declared.layout.TheConstants.{EXTENT_SIZE};
ghost use Rattle.file_model.specs.ByteFile.{written};
ghost use Rattle.open_file.specs.Buffered.{is_dirty};
ghost use Rattle.open_file.specs.Resizing.{WritesPages};

use file_model::MetadataMark;
use lower_tree::{EXTENT_SIZE, Opened};

/// How many octets an extent has.
pub(crate) const EXTENT: usize = EXTENT_SIZE as usize;

/// What was opened of a file, the plain text of its extents with zeros past the size, and what of it is to be written.
pub struct Buffers<K> {
    pub opened: Opened<K>,
    pub buffer: Vec<u8>,
    pub dirty: Vec<bool>,
    pub metadata_mark: MetadataMark,
    pub length_mark: bool,
}

/// Copies octets into a buffer.
fn copy_in(buffer: &mut [u8], at: usize, octets: &[u8])
    requires { at + length octets.now ≤ length buffer.old }
    ensures { buffer.new ≡ written at octets.now buffer.old }
{
    buffer[at..at + octets.len()].copy_from_slice(octets);
}

/// Marks the extents from one to another, the last left out.
pub(crate) fn mark(dirty: &mut [bool], first: usize, end: usize)
    requires rising { first ≤ end }
    requires within { end ≤ length dirty.old }
    ensures marked { (n : ℕ) → first ≤ n → n < end → is_dirty dirty.new n ≡ true }
    ensures below { (n : ℕ) → n < first → is_dirty dirty.new n ≡ is_dirty dirty.old n }
    ensures behind { (n : ℕ) → end ≤ n → is_dirty dirty.new n ≡ is_dirty dirty.old n }
{
    for n in first..end {
        dirty[n] = true;
    }
}

/// Copies octets of the content into the first ones of a room, and says how many.
pub(crate) fn copy_out(buffer: &[u8], size: u64, at: u64, to: &mut [u8]) -> usize
    requires { size ≤ length buffer.now }
    ensures most { result ≤ length to.old }
    ensures count { result ≡ length (take (length to.old) (drop at (take size buffer.now))) }
    ensures octets { take result to.new ≡ take (length to.old) (drop at (take size buffer.now)) }
{
    if at >= size {
        return 0;
    }
    let start = at as usize;
    let count = to.len().min(size as usize - start);
    to[..count].copy_from_slice(&buffer[start..start + count]);
    count
}

/// Writes octets within the size, and marks their extents.
fn write_pages(buffer: &mut [u8], dirty: &mut [bool], size: u64, at: u64, octets: &[u8])
    requires within { at + length octets.now ≤ size }
    requires most { size ≤ length buffer.old }
    requires marks { EXTENT_SIZE * length dirty.old ≡ length buffer.old }
    requires small { length buffer.old < 2 ^ 32 }
    ensures octets { take size buffer.new ≡ written at octets.now (take size buffer.old) }
    ensures pages { WritesPages size buffer.old buffer.new dirty.old dirty.new }
{
    let end = at as usize + octets.len();
    copy_in(buffer, at as usize, octets);
    mark(dirty, at as usize / EXTENT, end.div_ceil(EXTENT));
}

impl<K> Buffers<K> {
    ghost use Rattle.std.specs.Prelude.{◌≡◌, ◌+◌, ◌≤◌, ◌<◌, ℕ, length};
    ghost use Rattle.body_model.specs.LowerFile.{LowerFile};
    ghost use Rattle.body_model.specs.Format.{Format};
    ghost use Rattle.file_model.specs.ByteFile.{written};
    ghost use Rattle.file_model.specs.LaidOut.{Origin};
    ghost use Rattle.open_file.specs.Buffered.{IsBuffer, buffered_of, octets_of};
    ghost use Rattle.open_file.specs.Standing.{FileStands};

    /// Writes octets within the size. Whatever lower file the extents stood with, they stand with it afterwards.
    pub(crate) fn write_within(&mut self, at: u64, octets: &[u8])
        requires shaped { IsBuffer (buffered_of self.old) }
        requires within { at + length octets.now ≤ self.old.opened.size }
        ensures octets { octets_of (buffered_of self.new) ≡ written at octets.now (octets_of (buffered_of self.old)) }
        ensures opened { self.new.opened ≡ self.old.opened }
        ensures shaped { IsBuffer (buffered_of self.new) }
        ensures stands { (format : Format K) (origin : Origin) (file : LowerFile)
            → FileStands format origin file (buffered_of self.old) → FileStands format origin file (buffered_of self.new) }
    {
        let size = self.opened.size;
        write_pages(&mut self.buffer, &mut self.dirty, size, at, octets);
    }
}
