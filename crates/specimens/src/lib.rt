// The build paper's specimen replacements: their table and its statement in specs/, its proof in proofs/. There is no code here.

#![tactic(auto)]
