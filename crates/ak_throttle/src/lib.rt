//! Throttles: at most so many bodies run, and they start in order.
#![tactic(auto)]

pub mod answer;
pub mod law;
mod progress;
pub mod stage;
pub mod story;
pub mod throttle;
