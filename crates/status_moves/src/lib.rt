// The rule of the table of status moves, as definitions and theorems: the crate has no functions.
#![tactic(auto)]
