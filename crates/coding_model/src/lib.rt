//! Coded names of eCryptfs (tag 70 packets) as definitions: the coding of octets as letters, the lower name that an upper name is
//! written as, and the upper name that a lower name stands for.
#![tactic(auto)]

mod constants;

pub use constants::{
    LEAST_LEAD, LETTERS, LONGEST_CODED_NAME, LONGEST_CODED_OCTETS, PREFIX, TAG70, ZERO_BECOMES,
};
