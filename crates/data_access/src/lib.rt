// Data calls: reads and writes of cells.
#![tactic(auto)]

pub mod c_calls;
pub mod data;
mod stored;
