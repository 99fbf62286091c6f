//! What the keys and IVs of an eCryptfs mount are: definitions in `specs/`, and no code.
#![tactic(auto)]
