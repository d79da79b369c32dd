// No code: a name or a remittance text replaced by another legal one of equal length.
#![tactic(auto)]
