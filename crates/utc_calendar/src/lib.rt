//! Days, months and moments of UTC in the years 0001 to 9999, and the texts that name them.
#![tactic(auto)]

pub use dates::{Day, Stamp};
pub use months::Month;

pub mod calendar;
pub mod dates;
mod digits;
pub mod laws;
mod months;
