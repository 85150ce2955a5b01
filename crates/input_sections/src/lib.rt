//! The input of the program: what is left of its text, line by line, and the sections in it.
#![tactic(auto)]

mod faults;
mod rates;
mod sections;
mod unread;

pub use faults::{ScheduleCode, ScheduleFault};
pub use price_sheet::Sheet;
pub use rates::{RateInput, rate_input};
pub use sections::{Section, lines_below, number_behind, read_issuer, read_section, read_sheet};
pub use sheet_text::Issuer;
pub use unread::{Unread, behind_word};
