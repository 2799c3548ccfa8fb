#![tactic(auto)]

// Laws of floats: what a change of sign does to the operations, and how far results reach. Definitions and laws, and no code.
