//! How far a program's run and the history of a pool go together: definitions, with small records worked by hand.
#![tactic(auto)]

pub mod law;
