// Configuration registers, written through their masks.
#![tactic(auto)]

pub mod write;
