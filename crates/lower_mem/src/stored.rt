ghost use Rattle.std.specs.Prelude.{◌≡◌, ◌+◌, ◌-◌, ◌/◌, ◌≤◌, ◌++◌, Some, None, IfOk, OnOk, OnErr, length, take, drop, replicate, vec_capacity};
ghost use Rattle.body_model.specs.LowerFile.{no_octets};
ghost use Rattle.lower_mem.specs.Files.{nothing, stored, with_body, with_attribute, with_rooms, put_at, resized, torn};

use lower_tree::Items;
use std::alloc::{AllocError, Global};
use std::marker::Model;

/// What stands in place of octets whose write failed.
pub const TORN: u8 = b'?';

/// The attribute and the body of a lower file, and their rooms.
#[derive(Debug, Drop)]
pub struct StoredFile {
    attribute: Vec<u8>,
    has_attribute: bool,
    attribute_room: usize,
    body: Vec<u8>,
    body_room: usize,
}

impl Model for StoredFile {
    ghost use Rattle.std.specs.Prelude.{◌≤◌, Some, None, if◌then◌else◌, vec_capacity};
    ghost use Rattle.lower_mem.specs.Files.{FileInMemory};

    ghost Value = { FileInMemory };

    ghost view = { λ f. record { file = record { attribute = if f.has_attribute then Some f.attribute.items else None; body = f.body.items }; body_room = f.body_room; attribute_room = f.attribute_room } };

    ghost invariant = { λ f. (f.attribute_room ≤ vec_capacity f.attribute) × (f.body_room ≤ vec_capacity f.body) };
}

/// Takes room for so many octets.
fn make_room(octets: &mut Vec<u8>, room: usize) -> Result<(), AllocError>
    ensures items { octets.new.items ≡ octets.old.items }
    ensures stays { vec_capacity octets.old ≤ vec_capacity octets.new }
    ensures room { OnOk result (room ≤ vec_capacity octets.new) }
{
    octets.reserve(room.saturating_sub(octets.len()))
}

/// Makes a body as long as this, by zeros, within its capacity.
fn reach(body: &mut Vec<u8>, len: usize)
    requires { len ≤ vec_capacity body.old }
    ensures items { body.new.items ≡ body.old.items ++ replicate (len - length body.old.items) 0 }
    ensures room { vec_capacity body.old ≤ vec_capacity body.new }
{
    if body.len() < len {
        body.resize(len, 0).unwrap();
    }
}

/// Puts octets into a body, within its capacity.
fn put(body: &mut Vec<u8>, at: usize, octets: &[u8])
    requires { at + length octets.now ≤ vec_capacity body.old }
    ensures items { body.new.items ≡ put_at at octets.now body.old.items }
    ensures room { vec_capacity body.old ≤ vec_capacity body.new }
{
    let end = at + octets.len();
    reach(body, end);
    body[at..end].copy_from_slice(octets);
}

/// Puts this often `TORN` into a body, within its capacity.
fn put_torn(body: &mut Vec<u8>, at: usize, count: usize)
    requires { at + count ≤ vec_capacity body.old }
    ensures items { body.new.items ≡ put_at at (replicate count TORN) body.old.items }
    ensures room { vec_capacity body.old ≤ vec_capacity body.new }
{
    let end = at + count;
    reach(body, end);
    body[at..end].fill(TORN);
}

impl StoredFile {
    /// A file of these octets, with room for just them. It takes no memory.
    pub fn new(alloc: Global, attribute: Option<Items<u8>>, body: Items<u8>) -> StoredFile
        ensures { result ≡ stored (record { attribute = attribute; body = body }) }
    {
        let has_attribute = attribute.is_some();
        let attribute = attribute.map_or(Vec::new(alloc), Items::into_vec);
        let body = body.into_vec();
        let attribute_room = attribute.len();
        let body_room = body.len();
        StoredFile {
            attribute,
            has_attribute,
            attribute_room,
            body,
            body_room,
        }
    }

    /// No octets and no room. It takes no memory.
    pub fn empty(alloc: Global) -> StoredFile
        ensures { result ≡ nothing }
    {
        StoredFile {
            attribute: Vec::new(alloc),
            has_attribute: false,
            attribute_room: 0,
            body: Vec::new(alloc),
            body_room: 0,
        }
    }

    /// Its attribute and its body. It takes no memory.
    pub fn into_octets(self) -> (Option<Items<u8>>, Items<u8>)
        ensures { result ≡ (self.file.attribute, self.file.body) }
    {
        let StoredFile {
            attribute,
            has_attribute,
            body,
            ..
        } = self;
        if has_attribute {
            (Some(Items::from_vec(attribute)), Items::from_vec(body))
        } else {
            (None, Items::from_vec(body))
        }
    }

    /// The body.
    pub(crate) fn body(&self) -> &[u8]
        ensures { result.now ≡ self.now.file.body }
    {
        &self.body
    }

    /// A copy of the attribute, if it has it.
    pub(crate) fn attribute(&self, alloc: Global) -> Result<Option<Items<u8>>, AllocError>
        ensures { IfOk result (λ attribute. attribute ≡ self.now.file.attribute) }
    {
        if !self.has_attribute {
            return Ok(None);
        }
        Ok(Some(Items::from_slice(alloc, &self.attribute)?))
    }

    /// Takes room for a body and an attribute of these lengths. Without memory it stays as it is.
    pub(crate) fn reserve(&mut self, body: usize, attribute: usize) -> Result<(), AllocError>
        ensures ok { OnOk result (self.new ≡ with_rooms body attribute self.old) }
        ensures err { OnErr result (self.new ≡ self.old) }
    {
        make_room(&mut self.body, body)?;
        make_room(&mut self.attribute, attribute)?;
        self.body_room = self.body_room.max(body);
        self.attribute_room = self.attribute_room.max(attribute);
        Ok(())
    }

    /// Writes octets into the body, within its room. It takes no memory.
    pub(crate) fn write(&mut self, at: usize, octets: &[u8])
        requires { at + length octets.now ≤ self.old.body_room }
        ensures { self.new ≡ with_body (put_at at octets.now self.old.file.body) self.old }
    {
        put(&mut self.body, at, octets);
    }

    /// What a failing write of so many octets does, within the room: the first half of its range, rounded up, is `TORN` then. It
    /// takes no memory.
    pub(crate) fn tear(&mut self, at: usize, count: usize)
        requires { at + count ≤ self.old.body_room }
        ensures { self.new ≡ with_body (put_at at (torn count) self.old.file.body) self.old }
    {
        put_torn(&mut self.body, at, (count + 1) / 2);
    }

    /// Sets the length of the body, within its room. It takes no memory.
    pub(crate) fn resize(&mut self, len: usize)
        requires { len ≤ self.old.body_room }
        ensures { self.new ≡ with_body (resized len self.old.file.body) self.old }
    {
        self.body.resize(len, 0).unwrap();
    }

    /// Sets the attribute, within its room. It takes no memory.
    pub(crate) fn set_attribute(&mut self, octets: &[u8])
        requires { length octets.now ≤ self.old.attribute_room }
        ensures { self.new ≡ with_attribute (Some octets.now) self.old }
    {
        self.attribute.clear();
        self.attribute.extend_from_slice(octets).unwrap();
        self.has_attribute = true;
    }

    /// Takes the attribute away, but not its room.
    pub(crate) fn clear_attribute(&mut self)
        ensures { self.new ≡ with_attribute None self.old }
    {
        self.has_attribute = false;
    }
}
