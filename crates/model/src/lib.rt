// The proof of demand 3: a model of a house on functions, its invariant with the history, and what each change keeps (specs/).
#![tactic(auto)]
