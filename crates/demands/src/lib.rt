// The customer's three demands, as laws on what the slave's contract allows: statements and their proofs, no code.
#![tactic(auto)]
