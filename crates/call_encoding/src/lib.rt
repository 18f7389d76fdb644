// The bytes of a call and of its answer in a script: docs/SCRIPT.md describes them.
#![tactic(auto)]

pub mod answer;
pub mod decode;
pub mod encode;
pub mod fields;
mod put;
