//! Fields that several texts have: the cause of a bad file, octets of a file, the kind of a node.
#![tactic(auto)]
