// The functions for C, one subject to a file: each is its operation over the same bytes, with the answer as one 64-bit
// number.
#![tactic(auto)]

pub mod between;
pub mod converting;
pub mod desk;
pub mod fresh;
pub mod listing;
pub mod mark;
pub mod measure;
pub mod outcome;
pub mod page;
pub mod pending;
pub mod reading;
pub mod receipt;
pub mod saved;
pub mod tell;
pub mod tour;
