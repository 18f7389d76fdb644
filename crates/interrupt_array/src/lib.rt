// The hook array, and the line and pin of a function.
#![tactic(auto)]

pub mod hooks;
