//! Why an input was not played.

use counted_io::ReadFault;
use input_sections::ScheduleFault;
use metering_model::Refusal;
use thiserror::Error;

/// Why nothing was written, or not all.
#[derive(Clone, Copy, Debug, PartialEq, Eq, Drop, Error)]
pub enum PlayFault {
    /// P1: a call of the reader failed.
    #[error("read failed")]
    Read,
    /// P2: a section of the input is refused, or the input is too long.
    #[error("refused {0}")]
    Schedule(ScheduleFault),
    /// P3: a call of the writer failed.
    #[error("write failed")]
    Write,
    /// P4: out of memory: an allocation failed.
    #[error("out of memory")]
    OutOfMemory,
    /// P5: the batch is refused.
    #[error("refused {0}")]
    Refused(Refusal),
}

/// A refused section and an allocation failure are passed on as such.
impl From<ScheduleFault> for PlayFault {
    ghost use Rattle.std.specs.Prelude.{◌≡◌};
    ghost use Rattle.program_input.specs.Faults.{of_sections};

    ghost from_gives = { λ fault told. told ≡ of_sections fault };

    fn from(fault: ScheduleFault) -> PlayFault {
        match fault {
            ScheduleFault::Refused { code, line } => {
                PlayFault::Schedule(ScheduleFault::Refused { code, line })
            }
            ScheduleFault::OutOfMemory => PlayFault::OutOfMemory,
        }
    }
}

/// A failed call of a reader and an allocation failure are passed on as such.
impl From<ReadFault> for PlayFault {
    ghost use Rattle.std.specs.Prelude.{◌≡◌};
    ghost use Rattle.program_input.specs.Faults.{of_reader};

    ghost from_gives = { λ fault told. told ≡ of_reader fault };

    fn from(fault: ReadFault) -> PlayFault {
        match fault {
            ReadFault::Failed => PlayFault::Read,
            ReadFault::OutOfMemory => PlayFault::OutOfMemory,
        }
    }
}
