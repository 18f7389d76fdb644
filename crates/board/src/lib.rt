// What every call is built on: the numbers handed back, the two kinds of address, handles, the
// layout of the lent parts.
#![tactic(auto)]

pub mod address;
pub mod from_c;
pub mod handle;
pub mod layout;
pub mod parts;
pub mod read;
pub mod space;
pub mod status;
