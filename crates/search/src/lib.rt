// The search for feasible pairs at a split point.
#![tactic(auto)]

pub mod candidates;
pub mod pairs;
pub mod split;
