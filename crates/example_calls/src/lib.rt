// The functions for C, called with what a line of the examples lends.
#![tactic(auto)]

pub mod calls;
