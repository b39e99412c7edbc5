// TSPLIB texts: the language line by line, its judge, and the operations that read a text.
#![tactic(auto)]

pub mod gathering;
pub mod judging;
pub mod reading;
pub mod state;
