/// The most nodes of a plain tree, the root included.
pub const MOST_NODES: u32 = 4_096;
