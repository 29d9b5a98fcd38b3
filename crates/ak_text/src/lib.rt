//! Texts: their lines and words, and the numbers that words write.
#![tactic(auto)]

pub mod decimal;
pub mod line;
pub mod read;
pub mod text;
