// What a caller names in a call edition: request E1.
#![tactic(auto)]

pub mod edition;
