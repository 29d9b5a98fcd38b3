//! The two queues of jobs.
#![tactic(auto)]

pub mod job;
pub mod law;
pub mod rings;
