// Eight desks: sheets of eight candidates over one table, marked in turns, one line of one desk a turn.
#![tactic(auto)]

pub mod handing;
pub mod state;
pub mod turn;
