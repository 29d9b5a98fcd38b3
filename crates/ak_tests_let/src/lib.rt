//! Tests of the compiler of the let dialect: scripts beside texts that were written by hand, texts that are refused, and runs of
//! what is compiled.
#![tactic(auto)]

#[cfg(test)]
mod compiled;
#[cfg(test)]
mod refused;
#[cfg(test)]
mod runs;
#[cfg(test)]
mod tests;
