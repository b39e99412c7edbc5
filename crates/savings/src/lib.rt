// How much is saved, as operations: exchanging two edges, moving a point, a 3-opt closing.
#![tactic(auto)]

pub mod edges;
pub mod saved;
