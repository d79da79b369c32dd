// No code: a message is accepted exactly when it is the text of a document of which the profile holds.
#![tactic(auto)]
