// Reading until a buffer is full or the input ends.
#![tactic(auto)]

mod read;

pub use read::read_full;
