// No code: two messages that are alike but for the bytes of one value.
#![tactic(auto)]
