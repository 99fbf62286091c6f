/// The least number of a `make`.
pub const LEAST_NUMBER: u32 = 1;

/// The greatest number of a `make`.
pub const GREATEST_NUMBER: u32 = 1_000;
