//! Why a text of the program is refused.

use thiserror::Error;

/// Which rule a line breaks.
#[derive(Clone, Copy, Debug, PartialEq, Eq, Drop, Error)]
pub enum ScheduleCode {
    /// L1: the first line is not that of a schedule, or of a process of a group.
    #[error("L1")]
    Head,
    /// L2: no line with the number of nodes; of a process, no head line of its log.
    #[error("L2")]
    Nodes,
    /// L3: no line with the number of agents.
    #[error("L3")]
    Agents,
    /// L4: no line that opens a sheet, or no sheet after it.
    #[error("L4")]
    Sheet,
    /// L5: no line that opens an issuer, or no issuer after it.
    #[error("L5")]
    Issuer,
    /// L6: the line is no event; of a process, it does not say what was stored.
    #[error("L6")]
    Event,
    /// L7: fewer lines follow than the line says, or the last one has no line feed.
    #[error("L7")]
    Lines,
    /// L8: the text has more than 16,777,216 bytes.
    #[error("L8")]
    TooLong,
}

/// Why a text of the program is not read: its first fault by line, or an allocation failure.
#[derive(Clone, Copy, Debug, PartialEq, Eq, Drop, Error)]
pub enum ScheduleFault {
    /// The line, counted from 1, and the rule that it breaks.
    #[error("{code} line {line}")]
    Refused { code: ScheduleCode, line: u32 },
    /// Out of memory: an allocation failed.
    #[error("out of memory")]
    OutOfMemory,
}
