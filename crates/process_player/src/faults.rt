//! Why a process does not begin, or ends before its input does.

ghost use Rattle.std.specs.Prelude.{◌≡◌};
ghost use Rattle.process_player.specs.Inner.Told.{fault_of_section};
ghost use Rattle.process_player.specs.declared.faults.ProcessFault.{ProcessFault};
ghost use Rattle.input_sections.specs.declared.faults.ScheduleFault.{ScheduleFault};

use input_sections::{ScheduleCode, ScheduleFault};
use line_source::SourceFault;
use log_text::LogCode;
use thiserror::Error;

/// Why a process does not begin, or ends before its input does.
#[derive(Clone, Copy, Debug, PartialEq, Eq, Drop, Error)]
pub enum ProcessFault {
    /// A call of the reader failed.
    #[error("read failed")]
    Read,
    /// With what a process is begun is refused, by its first fault by line.
    #[error("refused {0}")]
    Section(ScheduleFault),
    /// Its log is refused, at that line of the log.
    #[error("refused log: {code} line {line}")]
    Log { code: LogCode, line: u64 },
    /// The log's first line is not the process's own head line.
    #[error("refused log: of another process")]
    OtherLog,
    /// The log is the agent's, and no journal of it alone without a gap.
    #[error("refused log: no journal of this agent")]
    NoJournal,
    /// A log or a command has more than 4,294,967,296 bytes, or 2^63 commands were done. What stands before the log is never reported
    /// so: too much there is refused, as L8.
    #[error("too long")]
    TooLong,
    /// A call of the writer failed.
    #[error("write failed")]
    Write,
    /// Out of memory: an allocation failed.
    #[error("out of memory")]
    OutOfMemory,
}

/// A fault of the sections: an allocation failure is told as such.
pub(crate) fn fault_of_section(fault: ScheduleFault) -> ProcessFault
    ensures { result ≡ fault_of_section fault }
{
    match fault {
        ScheduleFault::Refused { code, line } => {
            ProcessFault::Section(ScheduleFault::Refused { code, line })
        }
        ScheduleFault::OutOfMemory => ProcessFault::OutOfMemory,
    }
}

/// The fault of a line.
pub(crate) fn refused_at(code: ScheduleCode, line: u32) -> ProcessFault
    ensures { result ≡ ProcessFault.Section (ScheduleFault.Refused code line) }
{
    ProcessFault::Section(ScheduleFault::Refused { code, line })
}

/// Each is told as what it is.
impl From<SourceFault> for ProcessFault {
    ghost use Rattle.std.specs.Prelude.{◌≡◌};
    ghost use Rattle.process_player.specs.Inner.Told.{of_source};

    ghost from_gives = { λ fault told. told ≡ of_source fault };

    fn from(fault: SourceFault) -> ProcessFault {
        match fault {
            SourceFault::TooLong => ProcessFault::TooLong,
            SourceFault::Read => ProcessFault::Read,
            SourceFault::OutOfMemory => ProcessFault::OutOfMemory,
        }
    }
}
