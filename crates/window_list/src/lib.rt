// The window list: the kept list refreshed.
#![tactic(auto)]

pub mod refresh;
