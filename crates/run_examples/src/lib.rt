// Computed examples of runs: the crate has definitions and theorems, and no functions.
#![tactic(auto)]
