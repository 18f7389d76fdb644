// Descriptors of a function's windows.
#![tactic(auto)]

mod resource;

pub use resource::get_resource;
