// The calls that this board does not support.
#![tactic(auto)]

mod unsupported;

pub use unsupported::{get_routing, set_interrupt, special_cycle};
