// The tests of a call, in 01's order: of an instance, of a table or two, of marks, of what is pending.
#![tactic(auto)]

pub mod tested;
pub mod tests;
