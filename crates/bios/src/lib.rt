// The calls for C, a static library.
#![tactic(auto)]

pub mod config_exports;
pub mod data_exports;
pub mod exports;
pub mod interrupt_exports;
pub mod layout_exports;
pub mod resource_exports;
pub mod script_exports;
