// The dispatcher is fair: proved of lists of calls (specs/). No code.
#![tactic(auto)]
