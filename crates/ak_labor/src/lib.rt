//! Works, what comes of them, those who do them, and what the scheduler asks of the pool; the settings of a run.
#![tactic(auto)]

pub mod ask;
pub mod config;
pub mod labor;
pub mod port;
pub mod work;
