// Runs of the whole server, as definitions and theorems: the crate has no functions.
#![tactic(auto)]
