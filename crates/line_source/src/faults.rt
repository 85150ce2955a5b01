//! Why nothing more is read.

use thiserror::Error;

/// Why nothing more is read.
#[derive(Clone, Copy, Debug, PartialEq, Eq, Drop, Error)]
pub enum SourceFault {
    /// More than 4,294,967,296 bytes were read since the last mark.
    #[error("too long")]
    TooLong,
    /// A call of the source failed.
    #[error("read failed")]
    Read,
    /// Out of memory: an allocation failed.
    #[error("out of memory")]
    OutOfMemory,
}
