//! The tree of monitors.
#![tactic(auto)]

pub mod law;
mod node;
pub mod route;
pub mod tree;
