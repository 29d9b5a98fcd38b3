//! Tests of what a command reads: the texts of scripts, their names, and its words. They stand in a
//! crate of their own, so that no crate below is proved a second time for its tests.
#![tactic(auto)]

#[cfg(test)]
mod case;
#[cfg(test)]
mod programs;
#[cfg(test)]
mod scripts;
#[cfg(test)]
mod words;
