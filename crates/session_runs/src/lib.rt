// No code: a session of commands is a run of demand 3.
#![tactic(auto)]
