// What holds of every history that the protocol allows, as definitions and theorems: the crate has no functions.
#![tactic(auto)]
