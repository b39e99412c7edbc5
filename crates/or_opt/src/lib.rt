// Moving a point of degree two (or_opt; 02, Paper 7): what condition 5 asks of a leg.
#![tactic(auto)]

pub mod degree_two;
pub mod ends;
