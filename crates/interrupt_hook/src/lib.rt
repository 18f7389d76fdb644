// Interrupt chains: a hook comes in, or goes out.
#![tactic(auto)]

pub mod chain;
mod position;
