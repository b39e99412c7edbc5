// The first layer: the order of edges, TSPLIB's distances, and tables of lengths.
#![tactic(auto)]

pub mod at_most;
pub mod distance;
pub mod edge;
pub mod instance;
pub mod measure;
pub mod refusal;
pub mod rows;
pub mod saving;
pub mod sums;
pub mod table;
pub mod two_tables;
