// A sample run on tables of words, and the testers' wrong machines (specs/).
#![tactic(auto)]
