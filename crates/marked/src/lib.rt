// No code: the marked cases of 01 stand in specs/ as one list, and in proofs/ that all of them hold.
#![tactic(auto)]
