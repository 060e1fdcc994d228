// What is true of closing and running, with no code: the definitions are in specs/, the theorems on them in proofs/.

#![tactic(auto)]
