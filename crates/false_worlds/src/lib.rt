// Worlds and tables on which clauses of the demands are false: the crate has definitions and theorems, and no functions.
#![tactic(auto)]
