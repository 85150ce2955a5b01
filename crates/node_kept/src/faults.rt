//! Why a text is not read as what a node keeps.

use metering_model::KeptCode;
use thiserror::Error;

/// Why nothing is read of a text: its first fault by line, or an allocation failure.
#[derive(Clone, Copy, Debug, PartialEq, Eq, Drop, Error)]
pub enum KeptFault {
    /// The line, counted from 1, and what is wrong there.
    #[error("{code} line {line}")]
    Refused { code: KeptCode, line: u64 },
    /// Out of memory: an allocation failed.
    #[error("out of memory")]
    OutOfMemory,
}
