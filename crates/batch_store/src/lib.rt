//! The batches that a node holds, by agent and sequence.
#![tactic(auto)]

mod amended;
mod amenders;
mod batch_values;
mod fronts;
mod indexed;
pub mod laws;
mod missing;
mod row;
mod shelf;
mod stores;
mod values;
mod walk;

pub use batch_view::{Asked, AskedReading, BatchView, Offer, OwnedBatch};
pub use fx_money::Value;
pub use period_cut::{Cut, Period};
pub use stores::Store;
pub use walk::Batches;

/// Where a record stands: its agent, from 1; its batch's sequence, from 1; its index in the batch, from 0.
#[derive(Clone, Copy, Debug, PartialEq, Eq, PartialOrd, Ord)]
pub struct RecordPlace {
    pub agent: u8,
    pub seq: u32,
    pub index: u16,
}
