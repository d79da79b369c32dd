// No code: the items of an accepted message stand one behind the other, and each can be read again alone.
#![tactic(auto)]
