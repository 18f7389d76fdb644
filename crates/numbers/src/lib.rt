// Bytes, and numbers of w bytes in both orders.
#![tactic(auto)]

pub mod number;
