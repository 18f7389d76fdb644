// One register byte, written through its mask and its clear mask.
#![tactic(auto)]

pub mod byte;
