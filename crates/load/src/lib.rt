// Load: the lent parts of a board made anew from an image.
#![tactic(auto)]

pub mod calls;
mod install;
