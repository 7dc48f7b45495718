// Listing A of document 01, run on the definitions by the prover (specs/).
#![tactic(auto)]
