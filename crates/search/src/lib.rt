// Searching a list, as definitions and laws: the crate has no functions of its own.
#![tactic(auto)]
