//! What happens to a group of nodes, what it replies, and what its exports are made of.
#![tactic(auto)]

mod events;
mod replies;
mod snapshots;

pub use batch_view::{BatchView, Offer, OwnedBatch};
pub use events::Event;
pub use node_kept::{Kept, KeptFault, KeptOffer};
pub use period_cut::{Cut, Period};
pub use price_sheet::Sheet;
pub use replies::Reply;
pub use snapshots::Snapshot;
