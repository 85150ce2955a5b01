//! Fixed-point numbers of a cloud bill: whole units of a fixed part of the currency, each type
//! with its own limits, and the one text that each number has.
#![tactic(auto)]

mod costs;
mod deltas;
pub mod laws;
mod prices;
mod reading;
mod values;
mod writing;

pub use costs::Cost;
pub use deltas::Delta;
pub use metering_model::NumberFault;
pub use prices::Price;
pub use values::Value;

/// All but costs are whole millionths, with six places of decimals.
const PLACES: usize = 6;

const MILLION: u64 = 1_000_000;

const VALUE_LIMIT: u64 = 1_000_000_000_000_000_000;
