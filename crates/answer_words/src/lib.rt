//! The words of replies and refusals, and of what is wrong with sections, sheets and issuers.
#![tactic(auto)]

mod refusals;
pub mod replies;
mod sections;
mod sheet_faults;

pub use byte_text::Line;
pub use refusals::{code_word, kept_code_word, refusal_line};
pub use sections::{put_section, section_code_word};
pub use sheet_faults::{put_issuer_fault, put_sheet_fault};
