// Laws about the rules that the code and the theorem share (specs/).
#![tactic(auto)]
