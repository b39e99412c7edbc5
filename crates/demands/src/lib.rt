// Demands 2 and 3 as theorems over the definitions that the contracts of the operations cite: no code.
#![tactic(auto)]
