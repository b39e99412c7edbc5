// Texts into a buffer that the caller lends: words, and numbers in decimal.
#![tactic(auto)]

pub mod columns;
pub mod decimal;
pub mod words;
