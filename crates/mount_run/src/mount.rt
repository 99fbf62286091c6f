ghost use Rattle.std.specs.Prelude.{◌≡◌, [], true, length, map, IfOk, IfErr, OnOk};
ghost use Rattle.lower_tree.specs.Held.{TellAll, stores};
ghost use Rattle.name_form.specs.FormOf.{form_of};
ghost use Rattle.lower_tree.specs.Making.{held_parts, HoldSomeTree};
ghost use Rattle.mounted_files.specs.Files.{AreNew};
ghost use Rattle.mount_run.specs.InputAndOutput.{maker_of};
ghost use Rattle.mount_run.specs.Mounted.{IsUnchanged, IsMounted, FailsToMount, IsTakenDown, IsUnitedOrNot};

use lower_model::LowerTree;
use lower_tree::{BodyFormat, LowerBodies, LowerError, LowerMaker, LowerNames, Parts, Steps};
use mounted_files::{MountedFiles, StuckStore};
use name_form::NameForm;
use namespace::{Names, NamesFault};
use served_model::{MAKER_PART, NAMES_PART, ReportEnd};
use std::alloc::{AllocError, Global};
use std::sync::ledger::Ledger;

/// A lower tree that is mounted.
pub struct Mounted<N: LowerNames, U: NameForm, B: LowerBodies, F: BodyFormat, L: Ledger> {
    /// The tree over its names.
    pub names: Names<N, U>,
    /// The files over its stores of bodies.
    pub files: MountedFiles<B, F, L>,
}

/// Why a lower tree isn't mounted.
#[derive(Debug, Drop)]
pub enum MountError {
    /// A part failed: its number, and its counts of faults before and after.
    Stuck {
        /// The number of the part.
        part: u32,
        /// The count before.
        before: u64,
        /// The count after, which has risen.
        after: u64,
    },
    /// Memory ran out.
    Memory,
}

/// Mounts a lower tree under a form of names and a format of bodies. After an error the maker has all parts back.
pub fn mount<M: LowerMaker, U: NameForm + Drop, F: BodyFormat + Copy, L: Ledger>(
    alloc: Global,
    lower: &mut M,
    image: LowerTree,
    form: U,
    format: F,
    steps: Steps<L>,
) -> Result<Mounted<M::N, U, M::B, F, L>, MountError>
    ensures mounted { IfOk result (λ m. IsMounted (form_of (U.upper form) (U.written form) (U.longest form)) (maker_of M.tells M.count M.tally_of lower.old) image (held_parts M.N.held M.B.held m.names.lower (map (λ s. s.bodies) m.files)) m.names.tree m.names.kept) }
    ensures log { IfOk result (λ m. m.names.log ≡ []) }
    ensures form { IfOk result (λ m. m.names.form ≡ form) }
    ensures files { IfOk result (λ m. AreNew M.B.held F.rules format m.files) }
    ensures unchanged { IfOk result (λ m. IsUnchanged (maker_of M.tells M.count M.tally_of lower.old) (maker_of M.tells M.count M.tally_of lower.new)) }
    ensures fails { IfErr result (FailsToMount (maker_of M.tells M.count M.tally_of lower.old) (maker_of M.tells M.count M.tally_of lower.new)) }
{
    let before = lower.faults();
    let parts = match lower.split(alloc, image) {
        Ok(parts) => parts,
        Err(LowerError::Failed) => {
            return Err(MountError::Stuck {
                part: MAKER_PART,
                before,
                after: lower.faults(),
            });
        }
        Err(LowerError::Memory) => return Err(MountError::Memory),
    };
    let Parts { names, bodies } = parts;
    match Names::new(alloc, names, form) {
        Ok(names) => match MountedFiles::open(alloc, bodies, format, steps) {
            Ok(files) => Ok(Mounted { names, files }),
            Err(bodies) => {
                let (names, _, _) = names.end();
                lower.take_back(Parts { names, bodies });
                Err(MountError::Memory)
            }
        },
        Err(
            NamesFault::Lower {
                lower: names,
                before,
                after,
                ..
            },
        ) => {
            lower.take_back(Parts { names, bodies });
            Err(MountError::Stuck {
                part: NAMES_PART,
                before,
                after,
            })
        }
        Err(NamesFault::Memory { lower: names, .. }) => {
            lower.take_back(Parts { names, bodies });
            Err(MountError::Memory)
        }
    }
}

/// Unites the parts of a mount, whose files are written out: the end of the report.
fn unite<M: LowerMaker>(
    alloc: Global,
    lower: &mut M,
    parts: Parts<M::N, M::B>,
) -> Result<ReportEnd, AllocError>
    requires stores { length parts.bodies.items ≡ stores }
    requires allowed { M.tells lower.old ≡ true → TellAll (held_parts M.N.held M.B.held parts.names parts.bodies.items) → HoldSomeTree (held_parts M.N.held M.B.held parts.names parts.bodies.items) }
    ensures { IfOk result (IsUnitedOrNot (maker_of M.tells M.count M.tally_of lower.old) (maker_of M.tells M.count M.tally_of lower.new) (held_parts M.N.held M.B.held parts.names parts.bodies.items)) }
{
    let before = lower.faults();
    match lower.unite(alloc, parts) {
        Ok(tree) => Ok(ReportEnd::Image(tree)),
        Err(LowerError::Failed) => Ok(ReportEnd::Stuck {
            part: MAKER_PART,
            before,
            after: lower.faults(),
        }),
        Err(LowerError::Memory) => Err(AllocError),
    }
}

/// Takes the parts of a mount down, behind the write-out of its files: the end of the report. What isn't written out isn't united.
pub fn unmount<M: LowerMaker>(
    alloc: Global,
    lower: &mut M,
    parts: Parts<M::N, M::B>,
    out: Result<(), StuckStore>,
) -> Result<ReportEnd, AllocError>
    requires stores { length parts.bodies.items ≡ stores }
    requires allowed { OnOk out (M.tells lower.old ≡ true → TellAll (held_parts M.N.held M.B.held parts.names parts.bodies.items) → HoldSomeTree (held_parts M.N.held M.B.held parts.names parts.bodies.items)) }
    ensures { IfOk result (IsTakenDown (maker_of M.tells M.count M.tally_of lower.old) (maker_of M.tells M.count M.tally_of lower.new) (held_parts M.N.held M.B.held parts.names parts.bodies.items) out) }
{
    match out {
        Ok(()) => unite(alloc, lower, parts),
        Err(stuck) => {
            lower.take_back(parts);
            Ok(ReportEnd::Stuck {
                part: stuck.part,
                before: stuck.before,
                after: stuck.after,
            })
        }
    }
}
