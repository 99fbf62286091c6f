//! What ties a plain tree over lower names to the store that holds them, and what each change keeps of it.
#![tactic(auto)]
