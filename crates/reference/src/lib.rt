// The reference machine and the claims about runs. No functions: they stand in specs/, their proofs
// in proofs/.
#![tactic(auto)]
