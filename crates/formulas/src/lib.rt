// How a formula is written as codes, with no code: the definitions are in specs/, in proofs/ that codes which pass for a
// formula are one, and which.

#![tactic(auto)]
