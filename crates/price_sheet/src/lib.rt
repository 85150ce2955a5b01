//! The price sheet, read from TOML, and look-ups in it. It passes on the rows and the issuer of `sheet_text`.
#![tactic(auto)]

mod commitment_table;
mod id_table;
mod places;
mod price_in_force;
mod price_index;
mod price_table;
mod region_table;
mod rows;
mod sheets;

pub use sheet_text::{Commitment, Issuer, IssuerFault, Key, Place, PriceRow, Region, SheetFault};
pub use sheets::Sheet;
