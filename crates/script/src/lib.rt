// Scripts of calls, performed in place: docs/SCRIPT.md describes them.
#![tactic(auto)]

pub mod run;
pub mod turn;
