ghost use Rattle.std.specs.Prelude.{◌≡◌, ◌+◌, ◌≤◌, true, IfOk, OnOk, OnErr, length, is_err};
ghost use Rattle.body_model.specs.Bodies.{HeldBodies};
ghost use Rattle.body_model.specs.BodyCalls.{ChangesBody, HasAttribute, HasRooms, HalfResizes, IsCall, KeepsBody, KeepsFiles, KeepsOthers, Resizes, Tears, TellsAttribute, TellsLength, TellsOctets, Writes};
ghost use Rattle.lower_tree.specs.Calls.{is_fault};

use crate::{Failed, LowerError};
use lower_model::Items;
use std::alloc::Global;

/// A store of the bodies and attributes of a lower tree's files, by the numbers of their nodes. A node that it has nothing of has
/// an empty body and no attribute.
pub trait LowerBodies {
    /// What it holds.
    ghost held: { Self → HeldBodies };

    /// How many of its calls failed, as far as a `u64` goes.
    fn faults(&self) -> u64
        ensures { result ≡ (held self.now).faults };

    /// How many of the calls below were made, as far as a `u64` goes.
    fn calls(&self) -> u64
        ensures { result ≡ (held self.now).calls };

    /// The length of a body.
    fn len(&mut self, node: u32) -> Result<u64, Failed>
        ensures call { IsCall (is_err result) (held self.old) (held self.new) }
        ensures keeps { KeepsFiles (held self.old) (held self.new) }
        ensures len { IfOk result (TellsLength (held self.old) node) };

    /// Reads octets of a body, which has to have them all.
    fn read_at(&mut self, node: u32, at: u64, to: &mut [u8]) -> Result<(), Failed>
        requires { (held self.old).told ≡ true → at + length to.old ≤ length ((held self.old).files node).body }
        ensures call { IsCall (is_err result) (held self.old) (held self.new) }
        ensures keeps { KeepsFiles (held self.old) (held self.new) }
        ensures octets { OnOk result (TellsOctets (held self.old) node at to.new) };

    /// Takes room for a body and an attribute of these lengths.
    fn reserve(
        &mut self,
        alloc: Global,
        node: u32,
        body: u64,
        attribute: usize,
    ) -> Result<(), LowerError>
        ensures call { IsCall (is_fault result) (held self.old) (held self.new) }
        ensures keeps { KeepsFiles (held self.old) (held self.new) }
        ensures rooms { OnOk result (HasRooms (held self.new) node body attribute) };

    /// Writes octets into a body, within its room. What comes to stand between its old end and `at` is any octets; after a failure
    /// the range of the write is. It takes no memory.
    fn write_at(&mut self, node: u32, at: u64, from: &[u8]) -> Result<(), Failed>
        requires { at + length from.now ≤ (held self.old).body_room node }
        ensures call { IsCall (is_err result) (held self.old) (held self.new) }
        ensures others { KeepsOthers node (held self.old) (held self.new) }
        ensures written { OnOk result (ChangesBody (Writes at from.now) node (held self.old) (held self.new)) }
        ensures torn { OnErr result (ChangesBody (Tears at (length from.now)) node (held self.old) (held self.new)) };

    /// Sets the length of a body, within its room; new octets are any. After a failure the length is the old or the new one. It
    /// takes no memory.
    fn set_len(&mut self, node: u32, len: u64) -> Result<(), Failed>
        requires { len ≤ (held self.old).body_room node }
        ensures call { IsCall (is_err result) (held self.old) (held self.new) }
        ensures others { KeepsOthers node (held self.old) (held self.new) }
        ensures resized { OnOk result (ChangesBody (Resizes len) node (held self.old) (held self.new)) }
        ensures half { OnErr result (ChangesBody (HalfResizes len) node (held self.old) (held self.new)) };

    /// The attribute `user.ecryptfs` of a node, if it has it.
    fn attribute(&mut self, alloc: Global, node: u32) -> Result<Option<Items<u8>>, LowerError>
        ensures call { IsCall (is_fault result) (held self.old) (held self.new) }
        ensures keeps { KeepsFiles (held self.old) (held self.new) }
        ensures attribute { IfOk result (TellsAttribute (held self.old) node) };

    /// Sets the attribute of a node, within its room, to one octet or more. After a failure it is any octets, or none. It takes no
    /// memory.
    fn set_attribute(&mut self, node: u32, octets: &[u8]) -> Result<(), Failed>
        requires some { 1 ≤ length octets.now }
        requires room { length octets.now ≤ (held self.old).attribute_room node }
        ensures call { IsCall (is_err result) (held self.old) (held self.new) }
        ensures others { KeepsOthers node (held self.old) (held self.new) }
        ensures body { KeepsBody node (held self.old) (held self.new) }
        ensures attribute { OnOk result (HasAttribute node octets.now (held self.new)) };
}
