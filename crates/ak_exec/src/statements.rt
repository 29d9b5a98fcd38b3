//! The statements, by groups.

pub mod alarms;
pub mod deferred;
pub mod groups;
pub mod jobs;
pub mod monitors;
pub mod pipes;
pub mod throttles;
pub mod values;
pub mod works;
