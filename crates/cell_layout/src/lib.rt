// The cells of the windows: how many each needs, and where they begin.
#![tactic(auto)]

pub mod cells;
