//! Why no file was written, or not all of it.

use line_source::SourceFault;
use thiserror::Error;

/// Why no file was written, or not all of it.
#[derive(Clone, Copy, Debug, PartialEq, Eq, Drop, Error)]
pub enum FileFault {
    /// No whole line of the input stands above a file of the period.
    #[error("no file")]
    NoFile,
    /// One does, but fewer whole lines follow than it says.
    #[error("torn file")]
    Torn,
    /// The input has more than 4,294,967,296 bytes.
    #[error("refused L8 line 1")]
    TooLong,
    /// A call of the reader failed.
    #[error("read failed")]
    Read,
    /// A call of the writer failed.
    #[error("write failed")]
    Write,
    /// Out of memory: an allocation failed.
    #[error("out of memory")]
    OutOfMemory,
}

/// A fault of reading is told as such.
impl From<SourceFault> for FileFault {
    ghost use Rattle.std.specs.Prelude.{◌≡◌};
    ghost use Rattle.period_file.specs.Faults.{of_source};

    ghost from_gives = { λ fault told. told ≡ of_source fault };

    fn from(fault: SourceFault) -> FileFault {
        match fault {
            SourceFault::TooLong => FileFault::TooLong,
            SourceFault::Read => FileFault::Read,
            SourceFault::OutOfMemory => FileFault::OutOfMemory,
        }
    }
}
