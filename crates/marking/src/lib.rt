// The third layer: the operations that an examiner and a solver call, over sheets, the walk and lines.
#![tactic(auto)]

pub mod list_between;
pub mod listing;
pub mod mark;
pub mod mark_between;
