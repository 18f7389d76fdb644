// The writer of board images.
#![tactic(auto)]

pub mod write;
