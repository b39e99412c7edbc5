// 01's starred examples, as one table with one theorem: definitions and a proof, no code.
#![tactic(auto)]
