//! Tests of runs: commands, crews, hubs with their workers, and turns.
#![tactic(auto)]

#[cfg(test)]
mod alarms;
#[cfg(test)]
mod choices;
#[cfg(test)]
mod commands;
#[cfg(test)]
mod crews;
#[cfg(test)]
mod cycles;
#[cfg(test)]
mod errors;
#[cfg(test)]
mod hubs;
#[cfg(test)]
mod meeting;
#[cfg(test)]
mod pipes;
#[cfg(test)]
mod replays;
#[cfg(test)]
mod requests;
#[cfg(test)]
mod throttles;
#[cfg(test)]
mod turns;
#[cfg(test)]
mod works;
