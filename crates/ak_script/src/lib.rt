//! Scripts as plain types: procedures and statements by name.
#![tactic(auto)]

pub mod script;
pub mod statement;
