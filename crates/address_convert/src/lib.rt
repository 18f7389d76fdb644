// The conversions between bus addresses and CPU addresses.
#![tactic(auto)]

pub mod convert;
