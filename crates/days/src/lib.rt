// No code: a day's calls, one behind the other, and what is true of the book afterwards.
#![tactic(auto)]
