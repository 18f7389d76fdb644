// One window: a base register decoded, a window kept in one number.
#![tactic(auto)]

pub mod decode;
pub mod kept;
