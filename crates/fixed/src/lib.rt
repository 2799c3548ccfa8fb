// The results that document 01 and the requests fix, proved together: the statements are in specs/, their proofs in proofs/. There is
// no code.
#![tactic(auto)]
