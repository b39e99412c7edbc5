// General laws of lists, counts, tests and Bools: definitions and theorems only, no code.
#![tactic(auto)]
