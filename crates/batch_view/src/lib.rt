//! Batches of usage records, read in place: their texts are lent, and not copied.
#![tactic(auto)]

pub use asked::{Asked, AskedReading, AskedRecords};
pub use batch::{BatchView, Records};
pub use metering_model::{BatchCode, BatchFault, Kind};
pub use owned::{Amendment, Offer, OwnedBatch};
pub use packed::Spans;
pub use record_view::{Reading, Record};

mod amendments;
mod asked;
mod batch;
mod bytes;
mod entries;
mod extents;
mod filling;
mod first_fault;
mod head;
mod keeping;
mod lines;
mod owned;
mod packed;
