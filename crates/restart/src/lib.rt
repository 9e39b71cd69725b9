// The theorem of demand 3 and what else holds in every run: the crate has no functions.
#![tactic(auto)]
