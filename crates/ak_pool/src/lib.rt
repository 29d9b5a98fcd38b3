//! A pool of threads without a thread in it: which works wait, run and are finished, and which threads are reserved for
//! helpers. Its history is legal, and says all.
#![tactic(auto)]

pub mod check;
mod desk;
pub mod pool;
mod requests;
pub mod task;
mod thread;
