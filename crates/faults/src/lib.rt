// No code: a refusal is the first fault in the written order.
#![tactic(auto)]
