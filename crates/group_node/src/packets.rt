//! Packets, and what comes of one.

use batch_view::OwnedBatch;
use node_kept::{Ballot, Vote};
use period_cut::{Cut, Period};
use std::sync::Arc;

/// What nodes send one another. Batches and cuts are shared.
#[derive(Drop)]
pub enum Packet {
    /// A batch that was journaled.
    Batch(Arc<OwnedBatch>),
    /// A proposer asks for promises.
    Prepare {
        period: Period,
        ballot: Ballot,
    },
    /// A node promises, and reports its vote.
    Promise {
        from: u8,
        period: Period,
        ballot: Ballot,
        vote: Option<Vote>,
    },
    /// A proposer sends its cut.
    Accept {
        period: Period,
        ballot: Ballot,
        cut: Arc<Cut>,
    },
    /// A node has accepted a cut.
    Accepted {
        from: u8,
        period: Period,
        ballot: Ballot,
        cut: Arc<Cut>,
    },
    /// A node that has learned the period sends its cut.
    Decided {
        period: Period,
        cut: Arc<Cut>,
    },
}

/// What comes of a packet that a node handles.
#[derive(Drop)]
pub struct Handled {
    /// What the node sends.
    pub sends: Option<Packet>,
    /// The period that it learns.
    pub learns: Option<Period>,
}
