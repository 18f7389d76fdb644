// Document 01's proved cases. No functions: the table stands in specs/, its proof in proofs/.
#![tactic(auto)]
