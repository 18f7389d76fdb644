// The rules of one record of a board image.
#![tactic(auto)]

pub mod rules;
