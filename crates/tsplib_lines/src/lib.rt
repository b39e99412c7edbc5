// The lines of a TSPLIB text: what one line says.
#![tactic(auto)]

pub mod numbers;
pub mod text_line;
pub mod words;
