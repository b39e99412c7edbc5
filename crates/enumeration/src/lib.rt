// All feasible pairs of one edge at a split point.
#![tactic(auto)]

pub mod comparison;
pub mod find;
