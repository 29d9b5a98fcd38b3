//! The scheduler's state: what its parts hold together, and each change that a job makes of it.
#![tactic(auto)]

mod cells;
mod helpers;
mod lists;
mod local;
mod outstanding;
pub mod parts;
mod requests;
