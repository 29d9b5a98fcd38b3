//! The throttles of a run with the bodies that have started, and its pipes, each by its number.
#![tactic(auto)]

mod bodies;
pub mod pipes;
pub mod throttles;
