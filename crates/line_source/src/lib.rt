//! Lines of what a source gives, read when they are asked for.
#![tactic(auto)]

mod faults;
mod lines;
mod unread;

pub use faults::SourceFault;
pub use lines::{
    Found, line_end, lines_end, lines_end_within, lines_in_front, pass_line, read_ahead,
};
pub use unread::Unread;
