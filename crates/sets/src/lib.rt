// What a set of facts is, with no code: the definitions are in specs/, the laws about them in proofs/.

#![tactic(auto)]
