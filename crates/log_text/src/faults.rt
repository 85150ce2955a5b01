//! Why a text is not read as a log.

ghost use Rattle.std.specs.Prelude.{◌≡◌};
ghost use Rattle.log_text.specs.Inner.Reading.{fault_at};

use thiserror::Error;

/// What is wrong with a line of a log.
#[derive(Clone, Copy, Debug, PartialEq, Eq, Drop, Error)]
pub enum LogCode {
    /// The first line is none of a log's head.
    #[error("no head of a log")]
    Head,
    /// The lines that follow are no text of what is kept, or of another number of agents.
    #[error("no text of what is kept")]
    Kept,
    /// No increment that goes on from what stands above.
    #[error("no increment")]
    Increment,
    /// The text ends within what begins here; what stands above is a log.
    #[error("torn")]
    Torn,
    /// The text has more than 4,294,967,296 bytes.
    #[error("too long")]
    TooLong,
}

/// Why nothing is read of a text: its first fault by line, or an allocation failure.
#[derive(Clone, Copy, Debug, Drop, Error)]
pub enum LogFault {
    /// The line, counted from 1, and what is wrong there.
    #[error("{code} line {line}")]
    Refused { code: LogCode, line: u64 },
    /// Out of memory: an allocation failed.
    #[error("out of memory")]
    OutOfMemory,
}

/// Why nothing is read.
#[derive(Clone, Copy, Drop)]
pub(crate) enum Unread {
    /// Nothing of the kind stands there.
    NotThere,
    /// Out of memory.
    NoMemory,
}

/// The fault at that line where nothing is read.
pub(crate) fn fault_at(line: u64, code: LogCode, why: Unread) -> LogFault
    ensures { result ≡ fault_at line code why }
{
    match why {
        Unread::NotThere => LogFault::Refused { code, line },
        Unread::NoMemory => LogFault::OutOfMemory,
    }
}
