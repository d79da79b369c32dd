// No code: the cases that the paper marks P, each an answer of the definitions, in one table under one statement (specs/Cases.antt).
#![tactic(auto)]
