//! Lists of octets.
#![tactic(auto)]
