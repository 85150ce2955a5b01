//! Why a text is no sheet, or no issuer.

use crate::names::Key;
use thiserror::Error;

/// Where in a sheet a fault stands. Rows are counted from 1, each table for itself.
#[derive(Clone, Copy, Debug, PartialEq, Eq, Drop, Error)]
pub enum Place {
    #[error("top")]
    Top,
    #[error("price {0}")]
    Price(u16),
    #[error("commitment {0}")]
    Commitment(u16),
    #[error("region {0}")]
    Region(u16),
}

/// Why a text is no price sheet: its first fault.
#[derive(Clone, Copy, Debug, PartialEq, Eq, Drop, Error)]
pub enum SheetFault {
    /// S1: the text is no TOML.
    #[error("S1")]
    NotToml,
    /// S2: a key is absent.
    #[error("S2 {0} {1}")]
    Missing(Place, Key),
    /// S3: a value has another type or another form than its key wants, or is out of range.
    #[error("S3 {0} {1}")]
    BadValue(Place, Key),
    /// S4: an earlier price has the same SKU and the same day, or an earlier commitment or region the same id.
    #[error("S4 {0}")]
    Duplicate(Place),
    /// S5: no price has the SKU that a commitment is on, or the one that it is bought as.
    #[error("S5 {0} {1}")]
    UnknownSku(Place, Key),
    /// S6: out of memory: an allocation for what is read failed.
    #[error("S6")]
    OutOfMemory,
}

/// Why a text is no issuer: its first fault.
#[derive(Clone, Copy, Debug, PartialEq, Eq, Drop, Error)]
pub enum IssuerFault {
    /// I1: the text is no TOML.
    #[error("I1")]
    NotToml,
    /// I2: a key is absent.
    #[error("I2 {0}")]
    Missing(Key),
    /// I3: a value is no string, or has another form than its key wants.
    #[error("I3 {0}")]
    BadValue(Key),
    /// I4: out of memory: an allocation for what is read failed.
    #[error("I4")]
    OutOfMemory,
}
