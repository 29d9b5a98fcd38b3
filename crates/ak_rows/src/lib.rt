//! Worked scripts: the contract of each function is the run that its script must have, so that a wrong definition of the
//! machine is refused. The bodies are empty.
#![tactic(auto)]

pub mod basics;
pub mod choices;
pub mod errors;
pub mod histories;
pub mod meetings;
pub mod numbers;
pub mod pins_of_askers;
pub mod pins_of_clock;
pub mod pins_of_groups;
pub mod pins_of_histories;
pub mod pins_of_jobs;
pub mod pins_of_monitors;
pub mod pins_of_pipes;
pub mod pins_of_renaming;
pub mod pins_of_replays;
pub mod pins_of_requests;
pub mod pins_of_throttles;
pub mod pins_of_tries;
pub mod pins_of_works;
pub mod pipes;
pub mod replies;
pub mod requests;
pub mod throttles;
pub mod works;
