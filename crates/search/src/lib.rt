// The two searches of document 01.
#![tactic(auto)]

mod search;

pub use search::{find_pci_classcode, find_pci_device};
