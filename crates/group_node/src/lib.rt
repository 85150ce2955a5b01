//! One node of a group: what it keeps and tries, and what it does with each packet.
#![tactic(auto)]

mod answering;
mod beginning;
mod exporting;
mod handling;
mod learning;
mod nodes;
mod packets;
mod proposing;
mod voters;
mod voting;

pub use nodes::Node;
pub use packets::{Handled, Packet};
