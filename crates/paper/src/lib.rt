// The paper's theorems, each by name, for every list of steps (specs/).
#![tactic(auto)]
