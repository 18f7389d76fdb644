// The listing of interrupt chains.
#![tactic(auto)]

pub mod listing;
