//! What was done, by whom, and the replies.

use group_events::{Event, Reply};
use metering_model::Worker;

/// One act: who acted, the event, and the reply.
#[derive(Drop)]
pub struct Entry {
    /// The agent or node that acted.
    pub who: Worker,
    /// What it did.
    pub event: Event,
    /// The reply to it.
    pub reply: Reply,
}

/// What a worker gets back of its act: the index of the entry in the history, counted from 0, and the reply.
#[derive(Drop)]
pub struct Receipt {
    /// The index of the entry in the history, counted from 0.
    pub index: usize,
    /// The reply to the event.
    pub reply: Reply,
}
