// The form is kept: laws alone (specs/).
#![tactic(auto)]
