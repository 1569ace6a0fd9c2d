// What laws on answers, and contracts that answer yes or no, are stated with: definitions and their lemmas, no code.
#![tactic(auto)]
