// The lines of a sheet: each is judged, and struck where its argument is complete.
#![tactic(auto)]

pub mod line;
