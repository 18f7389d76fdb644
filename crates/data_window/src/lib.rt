// The window for a handle: which window a data access is for, or the check that fails.
#![tactic(auto)]

pub mod find;
pub mod found;
pub mod map;
pub mod named;
pub mod refusal;
