// The refusals of a load: the table over plain values, and the steps of a check that need no
// record.
#![tactic(auto)]

pub mod verdict;
