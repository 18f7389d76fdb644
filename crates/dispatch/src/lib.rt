// Every call on a board through one function, the step of a run.
#![tactic(auto)]

mod accesses;
mod ask;
pub mod perform;
