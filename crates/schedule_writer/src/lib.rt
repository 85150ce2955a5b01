//! From a sheet, an issuer and batches to a schedule that closes their months.
#![tactic(auto)]

mod above;
mod asked;
mod certifying;
mod checking;
mod drafting;
mod drafts;
mod faults;
mod inputs;
mod judging;
mod last_closed;
pub mod laws;
mod lines;
mod plans;
mod warnings;
mod writing;

pub use asked::Request;
pub use checking::check_schedule_input;
pub use faults::WriteFault;
pub use writing::schedule_text;
