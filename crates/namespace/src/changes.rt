ghost use Rattle.std.specs.Prelude.{◌≡◌, ◌≤◌, ◌<◌, ◌^◌, length, true, IfOk, IsTrue};
ghost use Rattle.name_form.specs.FormOf.{form_of};
ghost use Rattle.lower_model.specs.Name.{is_name};
ghost use Rattle.tree_model.specs.declared.change.Change.TheVariants.{Make, Remove, Move};
ghost use Rattle.plain_tree.specs.Prepared.{CanMake, CanRemove, CanMove, HasRoom};
ghost use Rattle.session_model.specs.TreeLog.{Turns};
ghost use Rattle.namespace_model.specs.Carried.{Keeps, Stays};
ghost use Rattle.namespace.specs.Ends.{Ends};
ghost use Rattle.namespace_model.specs.LowerFor.{lower_for, HasTarget};

use crate::state::State;
use lower_model::Items;
use lower_tree::{LowerError, LowerNames};
use name_form::NameForm;
use plain_tree::{Change, Prepared, TreeCall, TreeReply};
use std::alloc::{AllocError, Global};
use tree_model::{Making, Moving, Removal};

/// The lower name that an entry gets where it goes: that of the entry whose place it takes, else the written one.
fn lower_for<U: NameForm>(
    alloc: Global,
    form: &U,
    kept: &[Items<u8>],
    m: &Moving,
) -> Result<Items<u8>, AllocError>
    requires fits { length m.now.name ≤ U.longest form.now }
    requires within { HasTarget m.now.target (length kept.now) }
    ensures value { IfOk result (λ lower. lower ≡ lower_for (U.written form.now) kept.now m.now.name m.now.target) }
    ensures lawful { IsTrue (is_name m.now.name) }
{
    let name = m.name.octets();
    match m.target {
        Some(target) => Items::from_slice(alloc, kept[target as usize].as_slice()),
        None => form.write(alloc, name),
    }
}

impl<N: LowerNames, U: NameForm> State<N, U> {
    /// A new entry.
    fn make(&mut self, alloc: Global, m: Making) -> TreeReply
        requires may { CanMake self.old.tree m }
        requires room { HasRoom self.old.tree.places (Make m) self.old.spare }
        requires limit { self.old.tree.limit ≡ U.longest self.old.form }
        requires size { length self.old.kept.items ≡ length self.old.tree.places }
        requires keeps { (N.held self.old.lower).told ≡ true → Keeps (form_of (U.upper self.old.form) (U.written self.old.form) (U.longest self.old.form)) self.old.tree.places self.old.kept.items (N.held self.old.lower).entries }
        ensures ends { Ends result (N.held self.old.lower).faults (N.held self.new.lower).faults self.old.tree (Make m) self.new.tree }
        ensures keeps { (N.held self.old.lower).told ≡ true → Keeps (form_of (U.upper self.new.form) (U.written self.new.form) (U.longest self.new.form)) self.new.tree.places self.new.kept.items (N.held self.new.lower).entries }
        ensures stays { (N.held self.old.lower).told ≡ true → Stays (form_of (U.upper self.old.form) (U.written self.old.form) (U.longest self.old.form)) self.old.tree.places self.old.kept.items (N.held self.old.lower).entries self.new.tree.places self.new.kept.items (N.held self.new.lower).entries }
        ensures told { (N.held self.new.lower).told ≡ (N.held self.old.lower).told }
        ensures size { length self.new.kept.items ≡ length self.new.tree.places }
        ensures form { self.new.form ≡ self.old.form }
    {
        let Ok(written) = self.form.write(alloc, m.name.octets()) else {
            return TreeReply::Memory;
        };
        let Ok(()) = self.kept.try_reserve(1) else {
            return TreeReply::Memory;
        };
        let node = self.tree.places().len() as u32;
        match self
            .lower
            .create(alloc, m.dir, written.as_slice(), m.kind, node)
        {
            Ok(()) => {}
            Err(LowerError::Failed) => return TreeReply::LowerFault,
            Err(LowerError::Memory) => return TreeReply::Memory,
        }
        let reply = self.tree.change(alloc, Change::Make(m), &mut self.spare);
        self.kept.push(written).unwrap();
        reply
    }

    /// An entry goes that is a file or an empty directory.
    fn remove(&mut self, alloc: Global, r: Removal) -> TreeReply
        requires may { CanRemove self.old.tree r }
        requires size { length self.old.kept.items ≡ length self.old.tree.places }
        requires keeps { (N.held self.old.lower).told ≡ true → Keeps (form_of (U.upper self.old.form) (U.written self.old.form) (U.longest self.old.form)) self.old.tree.places self.old.kept.items (N.held self.old.lower).entries }
        ensures ends { Ends result (N.held self.old.lower).faults (N.held self.new.lower).faults self.old.tree (Remove r) self.new.tree }
        ensures keeps { (N.held self.old.lower).told ≡ true → Keeps (form_of (U.upper self.new.form) (U.written self.new.form) (U.longest self.new.form)) self.new.tree.places self.new.kept.items (N.held self.new.lower).entries }
        ensures stays { (N.held self.old.lower).told ≡ true → Stays (form_of (U.upper self.old.form) (U.written self.old.form) (U.longest self.old.form)) self.old.tree.places self.old.kept.items (N.held self.old.lower).entries self.new.tree.places self.new.kept.items (N.held self.new.lower).entries }
        ensures told { (N.held self.new.lower).told ≡ (N.held self.old.lower).told }
        ensures size { length self.new.kept.items ≡ length self.new.tree.places }
        ensures form { self.new.form ≡ self.old.form }
    {
        let nodes = self.tree.places().len();
        let lower = self.kept[r.node as usize].as_slice();
        match self.lower.remove(alloc, r.dir, lower) {
            Ok(()) => {}
            Err(LowerError::Failed) => return TreeReply::LowerFault,
            Err(LowerError::Memory) => return TreeReply::Memory,
        }
        self.tree.change(alloc, Change::Remove(r), &mut self.spare)
    }

    /// An entry gets another place.
    fn move_entry(&mut self, alloc: Global, m: Moving) -> TreeReply
        requires may { CanMove self.old.tree m }
        requires room { HasRoom self.old.tree.places (Move m) self.old.spare }
        requires limit { self.old.tree.limit ≡ U.longest self.old.form }
        requires size { length self.old.kept.items ≡ length self.old.tree.places }
        requires keeps { (N.held self.old.lower).told ≡ true → Keeps (form_of (U.upper self.old.form) (U.written self.old.form) (U.longest self.old.form)) self.old.tree.places self.old.kept.items (N.held self.old.lower).entries }
        ensures ends { Ends result (N.held self.old.lower).faults (N.held self.new.lower).faults self.old.tree (Move m) self.new.tree }
        ensures keeps { (N.held self.old.lower).told ≡ true → Keeps (form_of (U.upper self.new.form) (U.written self.new.form) (U.longest self.new.form)) self.new.tree.places self.new.kept.items (N.held self.new.lower).entries }
        ensures stays { (N.held self.old.lower).told ≡ true → Stays (form_of (U.upper self.old.form) (U.written self.old.form) (U.longest self.old.form)) self.old.tree.places self.old.kept.items (N.held self.old.lower).entries self.new.tree.places self.new.kept.items (N.held self.new.lower).entries }
        ensures told { (N.held self.new.lower).told ≡ (N.held self.old.lower).told }
        ensures size { length self.new.kept.items ≡ length self.new.tree.places }
        ensures form { self.new.form ≡ self.old.form }
    {
        let nodes = self.tree.places().len();
        let Ok(lower) = lower_for(alloc, &self.form, &self.kept, &m) else {
            return TreeReply::Memory;
        };
        let node = m.node as usize;
        let was = self.kept[node].as_slice();
        match self
            .lower
            .rename(alloc, m.from, was, m.to, lower.as_slice())
        {
            Ok(()) => {}
            Err(LowerError::Failed) => return TreeReply::LowerFault,
            Err(LowerError::Memory) => return TreeReply::Memory,
        }
        let reply = self.tree.change(alloc, Change::Move(m), &mut self.spare);
        self.kept[node] = lower;
        reply
    }

    /// One call.
    pub(crate) fn turn(&mut self, alloc: Global, call: &TreeCall) -> TreeReply
        requires limit { self.old.tree.limit ≡ U.longest self.old.form }
        requires size { length self.old.kept.items ≡ length self.old.tree.places }
        requires keeps { (N.held self.old.lower).told ≡ true → Keeps (form_of (U.upper self.old.form) (U.written self.old.form) (U.longest self.old.form)) self.old.tree.places self.old.kept.items (N.held self.old.lower).entries }
        ensures turns { Turns result call.now (N.held self.old.lower).faults (N.held self.new.lower).faults self.old.tree self.new.tree }
        ensures later { (N.held self.old.lower).faults < 2 ^ 64 → (N.held self.old.lower).faults ≤ (N.held self.new.lower).faults }
        ensures keeps { (N.held self.old.lower).told ≡ true → Keeps (form_of (U.upper self.new.form) (U.written self.new.form) (U.longest self.new.form)) self.new.tree.places self.new.kept.items (N.held self.new.lower).entries }
        ensures stays { (N.held self.old.lower).told ≡ true → Stays (form_of (U.upper self.old.form) (U.written self.old.form) (U.longest self.old.form)) self.old.tree.places self.old.kept.items (N.held self.old.lower).entries self.new.tree.places self.new.kept.items (N.held self.new.lower).entries }
        ensures told { (N.held self.new.lower).told ≡ (N.held self.old.lower).told }
        ensures size { length self.new.kept.items ≡ length self.new.tree.places }
        ensures form { self.new.form ≡ self.old.form }
        ensures limit { self.new.tree.limit ≡ self.old.tree.limit }
    {
        match self.tree.prepare(alloc, call, &mut self.spare) {
            Prepared::Answer(reply) => reply,
            Prepared::Change(Change::Make(m)) => self.make(alloc, m),
            Prepared::Change(Change::Remove(r)) => self.remove(alloc, r),
            Prepared::Change(Change::Move(m)) => self.move_entry(alloc, m),
        }
    }
}
