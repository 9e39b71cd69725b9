// What the server could have written to a log, as definitions and theorems: the crate has no functions.
#![tactic(auto)]
