//! The turn: a ticket lock whose passes agree on one log of all that was done to the value behind it.
#![tactic(auto)]

pub mod guarded;
pub mod lock;
mod rule;
mod steps;
mod view;
