//! Valid programs: names are numbers, and every use fits.
#![tactic(auto)]

mod binds;
mod calls;
mod check;
mod least;
mod locals;
mod names;
mod number;
mod places;
mod procs;
pub mod refusal;
mod requests;
mod statements;
mod uses;
pub mod validate;
pub mod verdict;
