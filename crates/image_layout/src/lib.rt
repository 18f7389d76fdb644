// What a board image is: its parts by their distance from its end, and the sum of its records.
#![tactic(auto)]

pub mod layout;
pub mod sum;
pub mod trailer;
