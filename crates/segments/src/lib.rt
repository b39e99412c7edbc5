// Segments of K, and new orders of their points.
#![tactic(auto)]

pub mod order;
pub mod reorder;
pub mod segment;
