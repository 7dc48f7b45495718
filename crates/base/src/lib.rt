// General laws on tests, ranges and lists (specs/). No code, and nothing of the house.
#![tactic(auto)]
