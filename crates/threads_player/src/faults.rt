//! Why there is no report.

use node_threads::RunFault;
use thiserror::Error;

/// Why no report of a run was written.
#[derive(Clone, Copy, Debug, Drop, Error)]
pub enum ThreadsFault {
    /// An allocation failed or a thread could not be started, in the run (N1) or beside it.
    #[error("out of memory")]
    OutOfMemory,
    /// The receipts of the run do not agree, a full world refused something, or its last file lacks batches (N2).
    #[error("mismatch")]
    Mismatch,
    /// A call of the writer failed.
    #[error("write failed")]
    Write,
    /// The sheet that is built in is refused.
    #[error("refused")]
    Refused,
}

/// A fault of a run is passed on as such.
impl From<RunFault> for ThreadsFault {
    ghost use Rattle.std.specs.Prelude.{◌≡◌};
    ghost use Rattle.threads_player.specs.Faults.{of_run};

    ghost from_gives = { λ fault told. told ≡ of_run fault };

    fn from(fault: RunFault) -> ThreadsFault {
        match fault {
            RunFault::OutOfMemory => ThreadsFault::OutOfMemory,
            RunFault::Mismatch => ThreadsFault::Mismatch,
        }
    }
}
