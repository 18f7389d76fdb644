// The listing of windows.
#![tactic(auto)]

pub mod listing;
