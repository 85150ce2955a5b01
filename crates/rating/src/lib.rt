//! What a charge costs: the price and the commitment of a reading, quantities rounded half to even, and costs that are
//! exact products.
#![tactic(auto)]

mod charges;
mod prices;
mod rated;
mod rounding;

pub use charges::rate;
pub use fx_money::{Cost, Delta, Price, Value};
pub use metering_model::PricedKind;
pub use price_sheet::Sheet;
pub use prices::{commitment_for, commitment_of, is_priced, price_for, price_of, priced_kind};
pub use rated::{Rated, rate_flat};
pub use record_view::{Reading, Tags};
