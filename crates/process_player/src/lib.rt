//! A process of a group over a stream: what it is begun with, and then each command with its answer.
#![tactic(auto)]

mod beginning;
mod faults;
mod heads;
mod preambles;
mod serving;
mod stored;

pub use faults::ProcessFault;
pub use heads::ProcessKind;
pub use log_text::LogCode;
pub use serving::process_text;
