//! A group of a given size that runs in threads, and a report of its book's history and the logs that agree with it.
#![tactic(auto)]

mod faults;
mod gates;
mod journals;
mod plans;
mod reports;
mod samples;
mod sizes;
mod texts;

pub use faults::ThreadsFault;
pub use sizes::Size;
pub use texts::threads_text;
