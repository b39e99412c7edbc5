// Why each pair at the first split of a line does not stand, or how its case is closed, in sentences (02, Paper 6).
#![tactic(auto)]

pub mod judging;
pub mod line_text;
pub mod pair;
pub mod telling;
