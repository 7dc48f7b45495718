// A table of words as the model sees it, and each accepted step as a change of the model (specs/).
#![tactic(auto)]
