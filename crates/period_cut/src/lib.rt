//! Billing periods and cuts.
#![tactic(auto)]

mod cuts;
pub mod laws;
mod periods;

pub use cuts::Cut;
pub use periods::Period;
pub use utc_calendar::{Month, Stamp};
