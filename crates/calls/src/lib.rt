// A call beside the step function is made of steps: a set of its releases (specs/).
#![tactic(auto)]
