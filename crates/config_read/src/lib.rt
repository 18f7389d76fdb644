// Configuration registers, read; and the checks of every configuration call.
#![tactic(auto)]

pub mod read;
pub mod target;
