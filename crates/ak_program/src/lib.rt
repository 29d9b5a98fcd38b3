//! Valid programs as plain types: procedures and locals by place.
#![tactic(auto)]

pub mod program;
pub mod statement;
