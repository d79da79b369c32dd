// No code: what reading a message finds, and what the judge answers, as the paper says it; and laws about that.
#![tactic(auto)]
