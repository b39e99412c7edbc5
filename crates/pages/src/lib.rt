// The edge page: the wall list of an instance's edges, printed on pages and read again.
#![tactic(auto)]

pub mod page;
pub mod page_line;
pub mod reading;
pub mod writing;
