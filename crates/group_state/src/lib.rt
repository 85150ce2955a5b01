//! The world of a group: its sheet, its issuer, its journals, the packets that were sent, and its nodes; and what one
//! event does to it.
#![tactic(auto)]

mod deliveries;
mod exports;
mod full_world;
mod journaling;
mod revivals;
mod starts;
mod state;
mod steps;

pub use group_events::{Event, Reply, Snapshot};
pub use state::GroupState;
