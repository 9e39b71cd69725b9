// Who wins the race of request 14 of document 02, as a theorem over every play of both sides: the crate has no functions.
#![tactic(auto)]
