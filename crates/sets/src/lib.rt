// Edge sets: the set K, the neighbours of a point in it, its shape.
#![tactic(auto)]

pub mod beyond;
pub mod edge_set;
pub mod neighbours;
pub mod shape;
