// The check of a board image.
#![tactic(auto)]

pub mod check;
