//! Why two sheets do not stay as is asked, or are not compared.

use program_input::PlayFault;
use thiserror::Error;

/// Why a comparison did not end well.
#[derive(Clone, Copy, Debug, PartialEq, Eq, Drop, Error)]
pub enum SheetsFault {
    /// The input is refused, a read or a write failed, or an allocation did.
    #[error("{0}")]
    Input(PlayFault),
    /// All was written. From the day that was asked for the new sheet does not go on, or a region is named otherwise.
    #[error("unlike")]
    Unlike,
}
