// The closings of a case.
#![tactic(auto)]

pub mod closing;
pub mod saving;
