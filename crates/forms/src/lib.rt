// The plain form of a message: what is right, and laws. No code.
#![tactic(auto)]
