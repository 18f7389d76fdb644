// The hook array changed by one hook.
#![tactic(auto)]

pub mod change;
