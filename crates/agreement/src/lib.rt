// The state of coordinator and partitions agrees with the history in every run, as theorems: the crate has no functions.
#![tactic(auto)]
