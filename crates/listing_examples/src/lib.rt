// Document 01's listing, line by line: what each line is, and how its answer is written, computed by the definitions.
#![tactic(auto)]
