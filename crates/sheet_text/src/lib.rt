//! The texts of a price sheet and of an issuer, in TOML: what stands under a key, and one row of each table.
#![tactic(auto)]

mod commitments;
mod faults;
mod issuers;
mod keys;
mod names;
mod prices;
mod regions;

pub use commitments::Commitment;
pub use faults::{IssuerFault, Place, SheetFault};
pub use issuers::Issuer;
pub use keys::{KeyFault, base_under, rows_under};
pub use metering_model::{CommitmentCategory, ServiceCategory};
pub use names::Key;
pub use prices::PriceRow;
pub use regions::Region;
pub use utc_calendar::{Day, Month};
