//! What a new price sheet does to closed months, said line by line: up to which day prices and commitments stay, and
//! which regions are named otherwise; and each field that differs, where that is asked for.
#![tactic(auto)]

mod changes;
mod checks;
mod commitments;
mod comparisons;
mod days;
mod faults;
mod fields;
pub mod laws;
mod listings;
mod orders;
mod prices;
mod regions;

pub use changes::{Asked, sheets_text};
pub use checks::check_two_sheets;
pub use comparisons::{Likeness, likeness_between};
pub use faults::SheetsFault;
pub use utc_calendar::Day;
