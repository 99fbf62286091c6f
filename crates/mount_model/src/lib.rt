//! What a job says of its mount, as definitions: the key of its passphrase under a salt, the form of its names, and the format of its
//! files.
#![tactic(auto)]
