// The rules of one window entry of a record.
#![tactic(auto)]

pub mod entry;
