ghost use Rattle.std.specs.Prelude.{◌≡◌, ℕ, ◌+◌, ◌<◌, ◌≤◌, ◌/◌, ◌%◌, ◌++◌, [], ◌∷◌, Some, None, Ok, false, IfOk, OnOk, OnErr, length, take, drop, replicate, is_err};
ghost use Rattle.body_model.specs.BodyCalls.{ChangesBody, HasAttribute, HasRooms, HalfResizes, IsCall, KeepsBody, KeepsFiles, KeepsOthers, Resizes, Tears, TellsAttribute, TellsLength, TellsOctets, Writes};
ghost use Rattle.lower_tree.specs.Held.{stores};
ghost use Rattle.lower_tree.specs.Calls.{is_fault};
ghost use Rattle.lower_tree.specs.Making.{sum_of_counts};
ghost use Rattle.lower_mem.specs.Plan.{first_plan, fails_next};
ghost use Rattle.lower_mem.specs.declared.stored.TheConstants.{TORN};
ghost use Rattle.lower_mem.specs.Files.{nothing, with_body, with_attribute, with_rooms, put_at, resized, torn};
ghost use Rattle.lower_mem.specs.Bodies.{bodies_held, place_of, file_at_node, behind_any, behind_read, behind_change, with_file, padded, with_rooms_at};

use crate::StoredFile;
use crate::plan::{FailPlan, or_memory};
use lower_tree::{Failed, Items, LowerBodies, LowerError};
use std::alloc::{AllocError, Global};
use std::marker::Model;
use std::mem::replace;

/// How many stores of bodies there are.
pub(crate) const STORES: usize = 8;

/// The bodies and attributes of every eighth node of a lower tree in memory, of whose calls some may be made to fail.
#[derive(Debug, Drop)]
pub struct MemBodies {
    number: usize,
    files: Vec<StoredFile>,
    changes: FailPlan,
    reads: FailPlan,
    calls: u64,
}

impl Model for MemBodies {
    ghost use Rattle.lower_mem.specs.Bodies.{BodiesInMemory};

    ghost Value = { BodiesInMemory };

    ghost view = { λ b. record { number = b.number; files = b.files.items; changes = b.changes; reads = b.reads; calls = b.calls } };
}

impl MemBodies {
    /// The store of the nodes with this remainder by 8, without files. Those of its changing calls, and of its reading ones, fail
    /// that have these numbers, counted from 1. It takes no memory.
    pub(crate) fn new(alloc: Global, number: usize, changes: Vec<u64>, reads: Vec<u64>) -> MemBodies
        ensures { result ≡ record { number = number; files = []; changes = first_plan changes.items; reads = first_plan reads.items; calls = 0 } }
    {
        MemBodies {
            number,
            files: Vec::new(alloc),
            changes: FailPlan::new(changes),
            reads: FailPlan::new(reads),
            calls: 0,
        }
    }

    /// Adds a file behind those that it has. Without memory they stay.
    pub(crate) fn push(&mut self, file: StoredFile) -> Result<(), AllocError>
        ensures ok { OnOk result (self.new ≡ record self.old { files = self.old.files ++ file ∷ [] }) }
        ensures err { OnErr result (self.new ≡ self.old) }
    {
        self.files.push(file)?;
        Ok(())
    }

    /// The place of a node's file, past all places for a node of another store.
    fn place(&self, node: u32) -> usize
        ensures { result ≡ place_of self.now node }
    {
        if node as usize % STORES == self.number {
            node as usize / STORES
        } else {
            self.files.len()
        }
    }

    /// Takes the file of a node out, of which nothing is left. It takes no memory.
    pub(crate) fn take(&mut self, alloc: Global, node: u32) -> StoredFile
        ensures file { result ≡ file_at_node self.old node }
        ensures others { self.new ≡ with_file node nothing self.old }
    {
        let place = self.place(node);
        match self.files.get_mut(place) {
            Some(file) => replace(file, StoredFile::empty(alloc)),
            None => StoredFile::empty(alloc),
        }
    }

    /// Has places for so many files at least. Without memory all files stay as they are.
    fn grow(&mut self, alloc: Global, count: usize) -> Result<(), AllocError>
        ensures ok { OnOk result (self.new ≡ record self.old { files = padded count self.old.files }) }
        ensures err { OnErr result (self.new ≡ self.old) }
    {
        let more = count.saturating_sub(self.files.len());
        self.files.reserve(more)?;
        for _ in 0..more {
            self.files.push(StoredFile::empty(alloc)).unwrap();
        }
        Ok(())
    }

    /// Takes room for the body and the attribute of a node. Without memory all files stay as they are, and for a node of another
    /// store there is none.
    fn make_room(
        &mut self,
        alloc: Global,
        node: u32,
        body: u64,
        attribute: usize,
    ) -> Result<(), AllocError>
        ensures ok { OnOk result (self.new ≡ with_rooms_at node body attribute self.old) }
        ensures err { OnErr result ((k : ℕ) → file_at_node self.new k ≡ file_at_node self.old k) }
        ensures rest { self.new ≡ record self.old { files = self.new.files } }
        ensures own { OnOk result (node % stores ≡ self.old.number) }
    {
        if node as usize % STORES != self.number {
            return Err(AllocError);
        }
        let place = node as usize / STORES;
        self.grow(alloc, place + 1)?;
        self.files[place].reserve(body as usize, attribute)
    }

    /// Writes octets into the body of a node, within its room.
    fn write(&mut self, node: u32, at: usize, octets: &[u8])
        requires { at + length octets.now ≤ (file_at_node self.old node).body_room }
        ensures { self.new ≡ with_file node (with_body (put_at at octets.now (file_at_node self.old node).file.body) (file_at_node self.old node)) self.old }
    {
        let place = self.place(node);
        let Some(file) = self.files.get_mut(place) else {
            return;
        };
        file.write(at, octets);
    }

    /// Leaves of a write of so many octets into the body of a node what a failing one does.
    fn tear(&mut self, node: u32, at: usize, count: usize)
        requires { at + count ≤ (file_at_node self.old node).body_room }
        ensures { self.new ≡ with_file node (with_body (put_at at (torn count) (file_at_node self.old node).file.body) (file_at_node self.old node)) self.old }
    {
        let place = self.place(node);
        let Some(file) = self.files.get_mut(place) else {
            return;
        };
        file.tear(at, count);
    }

    /// Sets the length of the body of a node, within its room.
    fn resize(&mut self, node: u32, len: usize)
        requires { len ≤ (file_at_node self.old node).body_room }
        ensures { self.new ≡ with_file node (with_body (resized len (file_at_node self.old node).file.body) (file_at_node self.old node)) self.old }
    {
        let place = self.place(node);
        let Some(file) = self.files.get_mut(place) else {
            return;
        };
        file.resize(len);
    }

    /// Sets the attribute of a node, within its room.
    fn put_attribute(&mut self, node: u32, octets: &[u8])
        requires { length octets.now ≤ (file_at_node self.old node).attribute_room }
        ensures { self.new ≡ with_file node (with_attribute (Some octets.now) (file_at_node self.old node)) self.old }
    {
        let place = self.place(node);
        let Some(file) = self.files.get_mut(place) else {
            return;
        };
        file.set_attribute(octets);
    }

    /// Takes the attribute of a node away.
    fn clear_attribute(&mut self, node: u32)
        ensures { self.new ≡ with_file node (with_attribute None (file_at_node self.old node)) self.old }
    {
        let place = self.place(node);
        let Some(file) = self.files.get_mut(place) else {
            return;
        };
        file.clear_attribute();
    }

    /// Counts a call that never fails.
    fn begin(&mut self)
        ensures { self.new ≡ behind_any self.old }
    {
        self.calls = self.calls.saturating_add(1);
    }

    /// Counts a reading call, and whether it fails.
    fn begin_read(&mut self) -> Result<(), Failed>
        ensures counted { self.new ≡ behind_read self.old }
        ensures failed { is_err result ≡ fails_next self.old.reads }
    {
        self.begin();
        if self.reads.count() {
            return Err(Failed);
        }
        Ok(())
    }

    /// Counts a changing call, and whether it fails.
    fn begin_change(&mut self) -> Result<(), Failed>
        ensures counted { self.new ≡ behind_change self.old }
        ensures failed { is_err result ≡ fails_next self.old.changes }
    {
        self.begin();
        if self.changes.count() {
            return Err(Failed);
        }
        Ok(())
    }
}

impl LowerBodies for MemBodies {
    ghost held = { bodies_held };

    fn faults(&self) -> u64 {
        self.changes.faults().saturating_add(self.reads.faults())
    }

    fn calls(&self) -> u64 {
        self.calls
    }

    fn len(&mut self, node: u32) -> Result<u64, Failed>
        ensures value { result ≡ Ok (length (file_at_node self.old node).file.body) }
        ensures stays { self.new ≡ behind_any self.old }
        ensures call { IsCall (is_err result) (bodies_held self.old) (bodies_held self.new) }
        ensures keeps { KeepsFiles (bodies_held self.old) (bodies_held self.new) }
        ensures len { IfOk result (TellsLength (bodies_held self.old) node) }
    {
        self.begin();
        let place = self.place(node);
        match self.files.get(place) {
            Some(file) => Ok(file.body().len() as u64),
            None => Ok(0),
        }
    }

    fn read_at(&mut self, node: u32, at: u64, to: &mut [u8]) -> Result<(), Failed>
        requires { at + length to.old ≤ length (file_at_node self.old node).file.body }
        ensures failed { is_err result ≡ fails_next self.old.reads }
        ensures read { OnOk result (to.new ≡ take (length to.old) (drop at (file_at_node self.old node).file.body)) }
        ensures stays { self.new ≡ behind_read self.old }
        ensures call { IsCall (is_err result) (bodies_held self.old) (bodies_held self.new) }
        ensures keeps { KeepsFiles (bodies_held self.old) (bodies_held self.new) }
        ensures octets { OnOk result (TellsOctets (bodies_held self.old) node at to.new) }
    {
        self.begin_read()?;
        let place = self.place(node);
        if let Some(file) = self.files.get(place) {
            let at = at as usize;
            to.copy_from_slice(&file.body()[at..at + to.len()]);
        }
        Ok(())
    }

    fn reserve(
        &mut self,
        alloc: Global,
        node: u32,
        body: u64,
        attribute: usize,
    ) -> Result<(), LowerError>
        ensures cause { is_fault result ≡ false }
        ensures ok { OnOk result (self.new ≡ with_rooms_at node body attribute (behind_any self.old)) }
        ensures err { OnErr result ((k : ℕ) → file_at_node self.new k ≡ file_at_node self.old k) }
        ensures rest { self.new ≡ record (behind_any self.old) { files = self.new.files } }
        ensures call { IsCall (is_fault result) (bodies_held self.old) (bodies_held self.new) }
        ensures keeps { KeepsFiles (bodies_held self.old) (bodies_held self.new) }
        ensures rooms { OnOk result (HasRooms (bodies_held self.new) node body attribute) }
    {
        self.begin();
        or_memory(self.make_room(alloc, node, body, attribute))
    }

    fn write_at(&mut self, node: u32, at: u64, from: &[u8]) -> Result<(), Failed>
        requires { at + length from.now ≤ (file_at_node self.old node).body_room }
        ensures failed { is_err result ≡ fails_next self.old.changes }
        ensures put { OnOk result (self.new ≡ with_file node (with_body (put_at at from.now (file_at_node self.old node).file.body) (file_at_node self.old node)) (behind_change self.old)) }
        ensures half { OnErr result (self.new ≡ with_file node (with_body (put_at at (torn (length from.now)) (file_at_node self.old node).file.body) (file_at_node self.old node)) (behind_change self.old)) }
        ensures call { IsCall (is_err result) (bodies_held self.old) (bodies_held self.new) }
        ensures others { KeepsOthers node (bodies_held self.old) (bodies_held self.new) }
        ensures written { OnOk result (ChangesBody (Writes at from.now) node (bodies_held self.old) (bodies_held self.new)) }
        ensures torn { OnErr result (ChangesBody (Tears at (length from.now)) node (bodies_held self.old) (bodies_held self.new)) }
    {
        if let Err(failed) = self.begin_change() {
            self.tear(node, at as usize, from.len());
            return Err(failed);
        }
        self.write(node, at as usize, from);
        Ok(())
    }

    fn set_len(&mut self, node: u32, len: u64) -> Result<(), Failed>
        requires { len ≤ (file_at_node self.old node).body_room }
        ensures failed { is_err result ≡ fails_next self.old.changes }
        ensures set { OnOk result (self.new ≡ with_file node (with_body (resized len (file_at_node self.old node).file.body) (file_at_node self.old node)) (behind_change self.old)) }
        ensures stays { OnErr result (self.new ≡ behind_change self.old) }
        ensures call { IsCall (is_err result) (bodies_held self.old) (bodies_held self.new) }
        ensures others { KeepsOthers node (bodies_held self.old) (bodies_held self.new) }
        ensures resized { OnOk result (ChangesBody (Resizes len) node (bodies_held self.old) (bodies_held self.new)) }
        ensures half { OnErr result (ChangesBody (HalfResizes len) node (bodies_held self.old) (bodies_held self.new)) }
    {
        self.begin_change()?;
        self.resize(node, len as usize);
        Ok(())
    }

    fn attribute(&mut self, alloc: Global, node: u32) -> Result<Option<Items<u8>>, LowerError>
        ensures cause { is_fault result ≡ false }
        ensures value { IfOk result (λ attribute. attribute ≡ (file_at_node self.old node).file.attribute) }
        ensures stays { self.new ≡ behind_any self.old }
        ensures call { IsCall (is_fault result) (bodies_held self.old) (bodies_held self.new) }
        ensures keeps { KeepsFiles (bodies_held self.old) (bodies_held self.new) }
        ensures attribute { IfOk result (TellsAttribute (bodies_held self.old) node) }
    {
        self.begin();
        let place = self.place(node);
        match self.files.get(place) {
            Some(file) => or_memory(file.attribute(alloc)),
            None => Ok(None),
        }
    }

    fn set_attribute(&mut self, node: u32, octets: &[u8]) -> Result<(), Failed>
        requires some { 1 ≤ length octets.now }
        requires room { length octets.now ≤ (file_at_node self.old node).attribute_room }
        ensures failed { is_err result ≡ fails_next self.old.changes }
        ensures set { OnOk result (self.new ≡ with_file node (with_attribute (Some octets.now) (file_at_node self.old node)) (behind_change self.old)) }
        ensures none { OnErr result (self.new ≡ with_file node (with_attribute None (file_at_node self.old node)) (behind_change self.old)) }
        ensures call { IsCall (is_err result) (bodies_held self.old) (bodies_held self.new) }
        ensures others { KeepsOthers node (bodies_held self.old) (bodies_held self.new) }
        ensures body { KeepsBody node (bodies_held self.old) (bodies_held self.new) }
        ensures attribute { OnOk result (HasAttribute node octets.now (bodies_held self.new)) }
    {
        if let Err(failed) = self.begin_change() {
            self.clear_attribute(node);
            return Err(failed);
        }
        self.put_attribute(node, octets);
        Ok(())
    }
}
