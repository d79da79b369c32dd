// No code: the posting records of an accepted message, as the paper says them; and laws about that.
#![tactic(auto)]
