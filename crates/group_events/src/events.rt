//! Events: what may happen to a group.

ghost use Rattle.std.specs.Prelude.{◌≡◌, ◌↔◌, true, IfErr, IfOk, IsTrue};
ghost use Rattle.group_events.specs.Events.{event_of, is_batch, offer_of, shares};

use batch_view::Offer;
use node_kept::KeptOffer;
use std::alloc::AllocError;
use std::sync::Arc;

/// One thing that happens to a group. Any numbers may be named: those that the group lacks are refused.
#[derive(Drop)]
pub enum Event {
    /// A batch, or what was offered as one, is to be journaled.
    Journal(Offer),
    /// The packet of this number reaches a node.
    Deliver { packet: u32, node: u8 },
    /// A node begins a ballot of its own.
    Start { node: u8 },
    /// A node forgets what it does not keep.
    Restart { node: u8 },
    /// A node is asked for the file of a period.
    Export { node: u8, period: u16 },
    /// A node is asked for the text of what it keeps.
    Keep { node: u8 },
    /// A node restarts from what was offered as the text of what it keeps.
    Revive { node: u8, offer: KeptOffer },
}

/// What is offered once more: the same batch, shared, or the same fault.
fn copy_of_offer(offer: &Offer) -> Result<Offer, AllocError>
    ensures copy { IfOk result (λ copy. offer_of copy ≡ offer_of offer.now) }
    ensures want { IfErr result (λ _. is_batch (offer_of offer.now) ≡ true) }
{
    match offer {
        Offer::Good(batch) => match Arc::try_clone(batch) {
            Ok(batch) => Ok(Offer::Good(batch)),
            Err(_) => Err(AllocError),
        },
        Offer::Bad(fault) => Ok(Offer::Bad(*fault)),
    }
}

/// Whether both offer the same bytes, or have the same fault.
fn is_same_offer(one: &Offer, two: &Offer) -> bool
    ensures { IsTrue result ↔ (offer_of one.now ≡ offer_of two.now) }
{
    match (one, two) {
        (Offer::Good(one), Offer::Good(two)) => one.bytes() == two.bytes(),
        (Offer::Bad(one), Offer::Bad(two)) => *one == *two,
        _ => false,
    }
}

impl Event {
    /// Drops the event. A crate above calls it in place of `drop`, for the prover's time alone (docs/DECISIONS.md).
    pub fn release(self) {}

    /// An equal event, which shares the batch, or what was read of a text. An error is an allocation failure, and comes
    /// only of an event with one of these.
    pub fn copy(&self) -> Result<Event, AllocError>
        ensures copy { IfOk result (λ copy. event_of copy ≡ event_of self.now) }
        ensures want { IfErr result (λ _. shares (event_of self.now) ≡ true) }
    {
        match self {
            Event::Journal(offer) => match copy_of_offer(offer) {
                Ok(offer) => Ok(Event::Journal(offer)),
                Err(_) => Err(AllocError),
            },
            Event::Deliver { packet, node } => Ok(Event::Deliver {
                packet: *packet,
                node: *node,
            }),
            Event::Start { node } => Ok(Event::Start { node: *node }),
            Event::Restart { node } => Ok(Event::Restart { node: *node }),
            Event::Export { node, period } => Ok(Event::Export {
                node: *node,
                period: *period,
            }),
            Event::Keep { node } => Ok(Event::Keep { node: *node }),
            Event::Revive { node, offer } => match offer.copy() {
                Ok(offer) => Ok(Event::Revive { node: *node, offer }),
                Err(_) => Err(AllocError),
            },
        }
    }

    /// Whether both are the same event: the same numbers, the same bytes, or the same fault.
    pub fn same(&self, other: &Event) -> bool
        ensures { IsTrue result ↔ (event_of self.now ≡ event_of other.now) }
    {
        match (self, other) {
            (Event::Journal(one), Event::Journal(two)) => is_same_offer(one, two),
            (
                Event::Deliver { packet, node },
                Event::Deliver {
                    packet: packet_two,
                    node: node_two,
                },
            ) => *packet == *packet_two && *node == *node_two,
            (Event::Start { node }, Event::Start { node: node_two }) => *node == *node_two,
            (Event::Restart { node }, Event::Restart { node: node_two }) => *node == *node_two,
            (
                Event::Export { node, period },
                Event::Export {
                    node: node_two,
                    period: period_two,
                },
            ) => *node == *node_two && *period == *period_two,
            (Event::Keep { node }, Event::Keep { node: node_two }) => *node == *node_two,
            (
                Event::Revive { node, offer },
                Event::Revive {
                    node: node_two,
                    offer: offer_two,
                },
            ) => *node == *node_two && offer.same(offer_two),
            _ => false,
        }
    }
}
