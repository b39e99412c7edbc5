// Tours, the exchanges between them and 3-optimal tours: definitions and theorems, no code.
#![tactic(auto)]
