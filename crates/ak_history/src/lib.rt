//! The history of a pool: its events and their text.
#![tactic(auto)]

pub mod event;
mod form;
pub mod laws;
pub mod line;
pub mod reading;
pub mod refusal;
pub mod text;
