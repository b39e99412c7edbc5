// Reasons in words (02, Paper 6): sentences into a buffer that the caller lends.
#![tactic(auto)]

pub mod reason;
pub mod sentence;
