// No code: a padded field tells its value, and two items with equal records agree.
#![tactic(auto)]
