// Why files are refused, in the words of document 01's table, and the files written out from their lists, with no code:
// the definitions are in specs/, in proofs/ that what `files` finds is the cause and nothing else.

#![tactic(auto)]
