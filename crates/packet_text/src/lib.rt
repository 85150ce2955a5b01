//! What nodes and agents of a group send, as lines of text.
#![tactic(auto)]

pub mod laws;
mod numbers;
mod packets;
mod reading;
mod writing;

pub use numbers::is_group;
pub use packets::GroupPacket;
pub use reading::read_packet;
pub use writing::put_packet;
