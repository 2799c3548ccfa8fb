// Demand 3 for floats, of the mirror-exact nodes: the statement and its proof, and no code.
#![tactic(auto)]
