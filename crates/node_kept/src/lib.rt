//! What a node keeps over a restart, and its text.
#![tactic(auto)]

mod faults;
mod head;
mod kept;
mod offers;
mod reading;
mod writing;

pub use batch_store::Store;
pub use faults::KeptFault;
pub use kept::{Kept, Parts};
pub use metering_model::KeptCode;
pub use offers::KeptOffer;
pub use paxos_ballot::{Acceptor, Attempt, Ballot, Tally, Vote};
pub use writing::promised_number;
