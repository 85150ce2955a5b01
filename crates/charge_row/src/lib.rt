//! One charge as a row, by the columns of the FinOps Open Cost and Usage Specification (FOCUS) 1.0.
#![tactic(auto)]

mod columns;
mod commitments;
mod prices;
mod regions;
mod rows;
mod words;

pub use columns::FocusRow;
pub use period_cut::{Cut, Period};
pub use regions::RegionColumns;
pub use rows::{Billing, row};
