//! The group of nodes: a world that only comes from an opening one by events, so that the headline holds of it.
#![tactic(auto)]

pub mod laws;
mod playing;
mod world;

pub use metering_model::Refusal;
pub use playing::Stopped;
pub use price_sheet::Sheet;
pub use world::World;
