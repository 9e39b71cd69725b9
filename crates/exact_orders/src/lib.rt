// The theorem of request 11 of document 02, which holds in every run: the crate has no functions.
#![tactic(auto)]
