// The calls on a board and their answers, of which every crate above speaks: scripts need no claim
// to be encoded.
#![tactic(auto)]

pub mod answer;
mod call;
pub mod searches;

pub use call::{Access, Call, Query};
