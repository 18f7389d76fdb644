// The cells of an access: where they stand, what they hold and what a write leaves.
#![tactic(auto)]

pub mod target;
