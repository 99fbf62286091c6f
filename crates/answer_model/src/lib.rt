//! What a call answers, against what a definition gives: a value, a fault, or want of memory; and counts of failures.
#![tactic(auto)]
