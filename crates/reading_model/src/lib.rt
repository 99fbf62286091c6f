//! How a text is read, as definitions: its lines, their fields, and the lines of a script.
#![tactic(auto)]
