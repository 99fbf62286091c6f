/// Why a tree over lower names can't be opened. The store and the form are handed back.
#[derive(Debug, Drop)]
pub enum NamesFault<N, U> {
    /// A call on the lower names failed: the counts of faults before and after.
    Lower {
        /// The lower names.
        lower: N,
        /// The form of names.
        form: U,
        /// The count before.
        before: u64,
        /// The count after, which has risen.
        after: u64,
    },
    /// Memory ran out.
    Memory {
        /// The lower names.
        lower: N,
        /// The form of names.
        form: U,
    },
}
