// Computed lists of which the paper's theorems speak, an instance of each under its name (specs/).
#![tactic(auto)]
