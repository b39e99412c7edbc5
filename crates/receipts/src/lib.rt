// Slips: what a marked sheet came to, as the examiner and the candidate see it.
#![tactic(auto)]

pub mod receipt;
pub mod view;
