// What C, T, R and D answer on buffers in form (specs/).
#![tactic(auto)]
