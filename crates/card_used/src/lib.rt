// Used marks: the calls get_card_used and set_card_used.
#![tactic(auto)]

pub mod used;
