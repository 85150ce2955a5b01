//! The file of one period, cut out of a transcript: from a source to a sink.
#![tactic(auto)]

mod faults;
mod files;
mod lines_above;

pub use faults::FileFault;
pub use files::file_text;
pub use period_cut::Period;
