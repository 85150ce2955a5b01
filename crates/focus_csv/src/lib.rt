//! The CSV file of rows of charges.
#![tactic(auto)]

pub use files::{put_batches, put_file, put_file_in, write_rows};
pub use focus_row::{RowsBetween, rows_between};
pub use lines::header_text;
pub use rooms::{LineRoom, text_for};
use thiserror::Error;
pub use whole::{row_texts, write_file};

mod alike;
mod fields;
mod files;
pub mod laws;
mod lines;
mod numbers;
mod odd;
mod pieces;
mod quoting;
mod rooms;
mod tags;
mod texts;
mod whole;
mod writing;

/// Why a file was not written.
#[derive(Clone, Copy, Debug, Drop, Error)]
pub enum CsvFault {
    /// C1: a call of the sink failed.
    #[error("write failed")]
    Write,
    /// C2: out of memory: an allocation for the text failed.
    #[error("out of memory")]
    OutOfMemory,
}
