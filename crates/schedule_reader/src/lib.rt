//! Reading a whole schedule: a group, its sheet and its issuer, and events, or the first fault by line.
#![tactic(auto)]

mod events;
pub mod laws;
mod lines;
mod packed;
mod schedules;

pub use events::{Planned, event_in};
pub use packed::Events;
pub use schedules::{Preamble, Schedule, group_in};
