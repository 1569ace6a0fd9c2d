// That master and slave understand each other: statements and their proofs, no code.
#![tactic(auto)]
