// No code: one slip in the digits or letters of an accepted message is refused.
#![tactic(auto)]
