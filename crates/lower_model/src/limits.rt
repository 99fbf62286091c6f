/// The most entries of a lower tree; the root is none.
pub const MOST_ENTRIES: usize = 4_095;

/// The most octets of a file's attribute.
pub const LONGEST_ATTRIBUTE: usize = 65_536;
