// The lines of the examples: numbers, buffers, arguments, and the list of the functions for C.
#![tactic(auto)]

pub mod arguments;
pub mod digits;
pub mod signatures;
pub mod values;
