use lower_model::LowerTree;

/// The number of the names in the line `stuck`.
pub const NAMES_PART: u32 = 0;

/// How many parts there are: the names, and eight stores of bodies.
pub const PARTS: u32 = 9;

/// The number of the maker of the parts in the line `stuck`.
pub const MAKER_PART: u32 = 9;

/// How a report ends.
#[derive(Debug, Drop)]
pub enum ReportEnd {
    /// The lower tree after the run.
    Image(LowerTree),
    /// A part of the run failed: its number, and its counts of faults before and after.
    Stuck {
        /// The part's number: 0 for the names, 1 to 8 for a store of bodies, 9 for the maker of the parts.
        part: u32,
        /// Its count of faults before the failed call.
        before: u64,
        /// Its count of faults after it.
        after: u64,
    },
}
