// Reset: the lent parts of a board made anew from the loaded records.
#![tactic(auto)]

mod call;
mod restart;

pub use call::reset;
