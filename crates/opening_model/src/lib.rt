//! What a mount shows when it is opened: a lower tree's store, entered directory by directory.
#![tactic(auto)]
