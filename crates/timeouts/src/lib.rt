// The theorem of timeouts, which holds in every run: the crate has no functions.
#![tactic(auto)]
