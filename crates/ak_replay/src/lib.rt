//! The pool of a record: a port whose calls and replies are those of a legal history.
#![tactic(auto)]

mod passing;
pub mod port;
