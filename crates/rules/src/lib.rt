// The rules of feasible pairs: the legs at a split point, how much a pair may cost, and how much an exchange
// and a move save.
#![tactic(auto)]

pub mod bound;
pub mod legs;
pub mod saving;
