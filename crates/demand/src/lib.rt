// Demand 3, proved for every list of steps (specs/).
#![tactic(auto)]
