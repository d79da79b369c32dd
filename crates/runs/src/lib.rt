// Laws of a day played back; no code.
#![tactic(auto)]
