//! Why no schedule was written, or not all of one.

use input_sections::ScheduleFault;
use thiserror::Error;

/// Why no schedule was written, or not all of one.
#[derive(Debug, Drop, Error)]
pub enum WriteFault {
    /// A call of the reader failed.
    #[error("read failed")]
    Read,
    /// A section of the input is refused, or the input is too long, or the journals refuse a batch: in the words of `check`, with the
    /// line of the input, and without a line feed.
    #[error("refused")]
    Refused(Vec<u8>),
    /// The schedule would have more bytes, packets or periods than a schedule may have. A clause says that the journals take
    /// all batches then, and none that it was so.
    #[error("too long")]
    TooLong,
    /// What was to be written does not close the months as it should: of this the clauses say the same.
    #[error("not closed")]
    NotClosed,
    /// A call of the writer failed.
    #[error("write failed")]
    Write,
    /// Out of memory: an allocation failed.
    #[error("out of memory")]
    OutOfMemory,
}

/// Why a step stopped that reads nothing and writes nothing.
#[derive(Clone, Copy, Drop)]
pub(crate) enum Stop {
    TooLong,
    NotClosed,
    OutOfMemory,
}

impl Stop {
    /// Why a section of the schedule is not the one that was planned: no memory to read it, or it is refused.
    pub(crate) fn of_section(fault: ScheduleFault) -> Stop {
        match fault {
            ScheduleFault::OutOfMemory => Stop::OutOfMemory,
            ScheduleFault::Refused { .. } => Stop::NotClosed,
        }
    }
}

impl From<Stop> for WriteFault {
    ghost use Rattle.std.specs.Prelude.{◌≡◌};
    ghost use Rattle.schedule_writer.specs.Inner.Stops.{of_stop};

    ghost from_gives = { λ stop told. told ≡ of_stop stop };

    fn from(stop: Stop) -> WriteFault {
        match stop {
            Stop::TooLong => WriteFault::TooLong,
            Stop::NotClosed => WriteFault::NotClosed,
            Stop::OutOfMemory => WriteFault::OutOfMemory,
        }
    }
}
