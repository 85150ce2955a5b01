//! What stands behind `main`: the words that the program is given, what it does at them, and how it
//! ends.
#![tactic(auto)]

mod commands;
mod grammar;
mod runs;
mod statuses;
mod words;

pub use commands::{Command, Kind};
pub use period_file::{FileFault, file_text};
pub use process_player::{ProcessFault, ProcessKind};
pub use runs::{run, run_alone};
pub use schedule_writer::Request;
pub use sheet_changes::Asked;
pub use statuses::{Fault, ending};
pub use threads_player::{Size, ThreadsFault};
pub use words::{LineFault, command, help};
