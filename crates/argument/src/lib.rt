// Case arguments: definitions and theorems, no code.
#![tactic(auto)]
