// The step through descriptors, and the walker over it.
#![tactic(auto)]

pub mod step;
pub mod walker;
