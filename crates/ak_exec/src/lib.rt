//! The scheduler's state with its program, and how one job of it runs.
#![tactic(auto)]

mod arithmetic;
mod asks;
mod frames;
mod job;
mod returns;
mod statement;
mod statements;
pub mod world;
