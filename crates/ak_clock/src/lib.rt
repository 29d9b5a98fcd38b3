//! The clock: alarms and pending yields.
#![tactic(auto)]

pub mod alarm;
pub mod clock;
pub mod law;
pub mod story;
