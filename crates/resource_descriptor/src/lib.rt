// One descriptor of a window: its fields, and its 20 bytes.
#![tactic(auto)]

pub mod descriptor;
