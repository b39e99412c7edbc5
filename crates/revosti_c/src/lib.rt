// The static library for C: each export calls the function of `revosti` that has its name, with its clauses.
#![tactic(auto)]

mod between;
mod converting;
mod desk;
mod fresh;
mod listing;
mod mark;
mod measure;
mod page;
mod pending;
mod reading;
mod receipt;
mod saved;
mod tell;
mod tour;
