// The mathematics of sparse patterns: definitions in specs/, theorems in proofs/. There is no code here.

#![tactic(auto)]
