// The proved part of the fourth layer, the program: from the bytes of its input to the bytes that it prints.
#![tactic(auto)]

mod header;
mod lines;
pub mod report;
