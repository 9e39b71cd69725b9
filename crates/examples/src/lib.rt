// Computed examples of the calls: the crate has definitions and theorems, and no functions.
#![tactic(auto)]
