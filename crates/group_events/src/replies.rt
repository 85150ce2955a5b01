//! Replies: the output of a group for its events.

ghost use Rattle.std.specs.Prelude.{◌≡◌, ◌↔◌, true, IfOk, IfErr, IsTrue};
ghost use Rattle.group_events.specs.Replies.{grows, reply_of};

use crate::Snapshot;
use metering_model::Refusal;
use node_kept::Ballot;
use period_cut::Period;
use std::alloc::{AllocError, Global};

/// What a group replies to an event.
#[derive(Drop)]
pub enum Reply {
    /// The batch is in the journals, and the packet of this number carries it.
    Journaled {
        packet: u32,
    },
    /// The node took the packet, sent the packet of that number, and learned the cut of that period, if it did so.
    Delivered {
        sent: Option<u32>,
        learned: Option<Period>,
    },
    /// The node began this ballot, and sent the packet of this number.
    Started {
        ballot: Ballot,
        packet: u32,
    },
    /// The node keeps what it kept, and has no ballot of its own any more.
    Restarted,
    /// What the file of the period is made of.
    Exported(Snapshot),
    /// The text of what the node keeps.
    KeptText(Vec<u8>),
    /// Nothing was done, for this reason.
    Refused(Refusal),
}

impl Reply {
    /// Drops the reply. A crate above calls it in place of `drop`, for the prover's time alone (docs/DECISIONS.md).
    pub fn release(self) {}

    /// An equal reply. An error is an allocation failure, and comes only of an export and of a kept text.
    pub fn copy(&self, alloc: Global) -> Result<Reply, AllocError>
        ensures copy { IfOk result (λ copy. reply_of copy ≡ reply_of self.now) }
        ensures want { IfErr result (λ _. grows (reply_of self.now) ≡ true) }
    {
        match self {
            Reply::Journaled { packet } => Ok(Reply::Journaled { packet: *packet }),
            Reply::Delivered { sent, learned } => Ok(Reply::Delivered {
                sent: *sent,
                learned: *learned,
            }),
            Reply::Started { ballot, packet } => Ok(Reply::Started {
                ballot: *ballot,
                packet: *packet,
            }),
            Reply::Restarted => Ok(Reply::Restarted),
            Reply::Exported(snapshot) => match snapshot.copy(alloc) {
                Ok(copy) => Ok(Reply::Exported(copy)),
                Err(_) => Err(AllocError),
            },
            Reply::KeptText(text) => match Vec::from_slice(alloc, text) {
                Ok(copy) => Ok(Reply::KeptText(copy)),
                Err(_) => Err(AllocError),
            },
            Reply::Refused(refusal) => Ok(Reply::Refused(*refusal)),
        }
    }

    /// Whether both are the same reply; snapshots are the same where all of their parts are equal, texts where they are
    /// the same bytes.
    pub fn same(&self, other: &Reply) -> bool
        ensures { IsTrue result ↔ (reply_of self.now ≡ reply_of other.now) }
    {
        match (self, other) {
            (Reply::Journaled { packet }, Reply::Journaled { packet: packet_two }) => {
                *packet == *packet_two
            }
            (
                Reply::Delivered { sent, learned },
                Reply::Delivered {
                    sent: sent_two,
                    learned: learned_two,
                },
            ) => *sent == *sent_two && *learned == *learned_two,
            (
                Reply::Started { ballot, packet },
                Reply::Started {
                    ballot: ballot_two,
                    packet: packet_two,
                },
            ) => *ballot == *ballot_two && *packet == *packet_two,
            (Reply::Restarted, Reply::Restarted) => true,
            (Reply::Exported(one), Reply::Exported(two)) => one.same(two),
            (Reply::KeptText(one), Reply::KeptText(two)) => *one == *two,
            (Reply::Refused(one), Reply::Refused(two)) => *one == *two,
            _ => false,
        }
    }
}
