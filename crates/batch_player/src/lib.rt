//! The file of one batch, between a source and a sink.
#![tactic(auto)]

mod files;
mod rate;

pub use files::file_between;
pub use rate::{first_refusal, rate_batch, rate_text};
