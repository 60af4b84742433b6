// No code: what is promised over all layers stands in specs/, and the proofs in proofs/.
#![tactic(auto)]
