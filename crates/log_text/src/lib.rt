//! What a node or an agent stores, as lines of text.
#![tactic(auto)]

mod bases;
mod faults;
mod head_line;
mod heads;
mod increment_lines;
mod increments;
pub mod laws;
mod reading;
mod sections;
pub mod steps;
mod writing;

pub use faults::{LogCode, LogFault};
pub use heads::{LogHead, Who};
pub use increments::Increment;
pub use reading::{Log, read_log};
pub use writing::{has_head, put_head, put_increment, put_kept};
