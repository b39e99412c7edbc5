// The third layer, lowest part: sheets and their records, and the walk through an argument.
#![tactic(auto)]

pub mod board;
pub mod sheet;
pub mod verdict;
pub mod visits;
pub mod walk;
