//! What the lower file of an encrypted file decodes to, and eCryptfs as a format of bodies, as definitions.
#![tactic(auto)]

/// The flag of a file whose metadata stands in its attribute.
pub const ATTRIBUTE_FLAG: u32 = 0x4;

/// The flag of a file of a mount that codes names.
pub const NAMES_FLAG: u32 = 0x8;
