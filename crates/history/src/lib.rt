// The history of a house and demand 3, as definitions (specs/). No code.
#![tactic(auto)]
