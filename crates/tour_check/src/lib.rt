// The operation "check a tour".
#![tactic(auto)]

pub mod tour;
