// The marks of the edges: what a mark is, packed sets, fresh marks, how many edges are open, what is pending,
// and conversions.
#![tactic(auto)]

pub mod converting;
pub mod counting;
pub mod fresh;
pub mod mark;
pub mod packed;
pub mod pending;
