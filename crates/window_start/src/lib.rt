// The start of a base register's window, as its descriptor shows it.
#![tactic(auto)]

pub mod start;
