//! A node takes a packet.

ghost use Rattle.std.specs.Prelude.{◌≡◌, ◌↔◌, true, IsTrue, IfOk, IfSome, OnErr, None};
ghost use Rattle.std.specs.Option.{option_map};
ghost use Rattle.metering_model.specs.Ballot.{after_accept};
ghost use Rattle.metering_model.specs.Deliveries.{handled};
ghost use Rattle.metering_model.specs.World.{CarriesBatch};
ghost use Rattle.process_laws.specs.LocalSteps.{TakePacket, bare_world, is_packet_of};
ghost use Rattle.group_events.specs.Batches.{batch_of};
ghost use Rattle.group_node.specs.Packets.{packet_of};
ghost use Rattle.group_process.specs.Added.{AddsJust, increment_after};
ghost use Rattle.group_process.specs.Answers.{Does, taken_answer};
ghost use Rattle.group_process.specs.Inner.Likely.{HasLowParts, HasLowVote, IsLikely, IsLikelyVote, added_for};
ghost use Rattle.group_process.specs.Selves.{kept_of_node};

use crate::added::Added;
use crate::nodes::NodeProcess;
use group_events::{Cut, OwnedBatch, Period};
use group_node::{Handled, Packet};
use node_kept::{Acceptor, Ballot};
use std::alloc::{AllocError, Global};

/// What came of a packet that a node took.
#[derive(Drop)]
pub struct Taken {
    /// What the node sends.
    pub sends: Option<Packet>,
    /// The period that it learned.
    pub learned: Option<Period>,
    /// What it keeps more than before.
    pub added: Added,
}

/// Whether an acceptor has promised that ballot, and accepted that cut at it: to accept it changes nothing.
fn has_accepted(acceptor: &Acceptor, ballot: Ballot, cut: &Cut) -> bool
    ensures { IsTrue result
        ↔ (acceptor.now ≡ after_accept (record { ballot = ballot; cut = cut.now }) acceptor.now) }
{
    let Some(promised) = acceptor.promised() else {
        return false;
    };
    let Some(vote) = acceptor.vote() else {
        return false;
    };
    promised.number() == ballot.number()
        && vote.ballot.number() == ballot.number()
        && vote.cut.same(cut)
}

/// What accepting a cut may add.
fn added_by_vote(acceptor: &Acceptor, ballot: Ballot, cut: &Cut) -> Added
    ensures { IsLikelyVote acceptor.now (record { ballot = ballot; cut = cut.now }) result }
{
    if has_accepted(acceptor, ballot, cut) {
        Added::Nothing
    } else {
        Added::Ballots
    }
}

/// What taking a packet adds where the node does what the packet asks for.
fn added_for(likely: Added, handled: &Handled) -> Added
    ensures { result
        ≡ added_for likely (option_map packet_of handled.now.sends) handled.now.learns }
{
    if handled.learns.is_some() {
        return Added::Learned;
    }
    match &handled.sends {
        // An answer to what was learned before adds nothing.
        Some(Packet::Decided { .. }) => Added::Nothing,
        Some(Packet::Accept { .. }) => Added::Nothing,
        Some(_) => likely,
        None => match likely {
            Added::Batch { agent, seq } => Added::Batch { agent, seq },
            _ => Added::Nothing,
        },
    }
}

/// Learns that a vote's cut keeps the limits of its type. Nothing is done.
fn know_vote(acceptor: &Acceptor)
    ensures { HasLowVote acceptor.now }
{
    if let Some(vote) = acceptor.vote() {
        vote.cut.agents();
    }
}

impl NodeProcess {
    /// What taking a batch adds: the batch, unless the node holds it.
    fn added_by_batch(&self, batch: &OwnedBatch) -> Added
        ensures { IsLikely self.now.node (CarriesBatch (batch_of batch.now)) result }
    {
        let view = batch.view();
        let agent = view.agent();
        let seq = view.seq();
        if self.held(agent, seq).is_some() {
            Added::Nothing
        } else {
            Added::Batch { agent, seq }
        }
    }

    /// What taking a packet may add: a batch that the node lacks; what it promises or accepts, unless it has done so before. A
    /// packet's batch and its cut keep the limits of their types.
    fn added_by(&self, packet: &Packet) -> Added
        ensures likely { IsLikely self.now.node (packet_of packet.now) result }
        ensures parts { HasLowParts (packet_of packet.now) }
    {
        // For the proof alone: the clauses of `bytes` and `agents` say what batch and cut keep by their types.
        match packet {
            Packet::Batch(batch) => {
                batch.bytes();
                self.added_by_batch(batch)
            }
            Packet::Prepare { .. } => Added::Ballots,
            Packet::Promise { .. } => Added::Nothing,
            Packet::Accept { ballot, cut, .. } => {
                cut.agents();
                added_by_vote(self.node.acceptor(), *ballot, cut)
            }
            Packet::Accepted { cut, .. } => {
                cut.agents();
                Added::Nothing
            }
            Packet::Decided { cut, .. } => {
                cut.agents();
                Added::Nothing
            }
        }
    }

    /// Takes a packet of the group.
    fn take_own(&mut self, alloc: Global, packet: &Packet) -> Result<Taken, AllocError>
        requires { is_packet_of self.old.group.voters self.old.group.agents (packet_of packet.now)
            ≡ true }
        ensures group { self.new.group ≡ self.old.group }
        ensures number { self.new.number ≡ self.old.number }
        ensures handles { IfOk result (λ taken.
            handled (bare_world self.old.group) self.old.number self.old.node
            (packet_of packet.now) ≡ record {
              node = self.new.node;
              sends = option_map packet_of taken.sends;
              learns = taken.learned;
            }) }
        ensures adds { IfOk result (λ taken.
            AddsJust (kept_of_node self.old) (kept_of_node self.new)
            (increment_after taken.added (kept_of_node self.new))) }
        ensures told { IfOk result (λ taken.
            increment_after taken.added (kept_of_node self.new) ≡ None
            → taken.added ≡ Added.Nothing) }
        ensures kept { OnErr result (self.new ≡ self.old) }
    {
        // For the proof alone: their clauses say what group, node, packet and vote keep by their types.
        self.group.sizes();
        self.node.voters();
        self.node.store().agents();
        know_vote(self.node.acceptor());
        let likely = self.added_by(packet);
        let base = self.group.sheet().base_month();
        let Ok(handled) = self.node.handle(alloc, self.number, base, packet) else {
            return Err(AllocError);
        };
        let added = added_for(likely, &handled);
        Ok(Taken {
            sends: handled.sends,
            learned: handled.learns,
            added,
        })
    }

    /// Takes a packet that was sent in the group of that name. None where it is none of this group: then nothing has
    /// changed. An error is an allocation failure, and leaves the node as it was.
    pub fn take(
        &mut self,
        alloc: Global,
        name: &[u8],
        packet: &Packet,
    ) -> Result<Option<Taken>, AllocError>
        ensures does { IfOk result (λ taken. Does
            (TakePacket name.now (packet_of packet.now)) self.old self.new (taken_answer taken)) }
        ensures adds { IfOk result (λ taken. IfSome taken (λ t.
            AddsJust (kept_of_node self.old) (kept_of_node self.new)
            (increment_after t.added (kept_of_node self.new)))) }
        ensures told { IfOk result (λ taken. IfSome taken (λ t.
            increment_after t.added (kept_of_node self.new) ≡ None → t.added ≡ Added.Nothing)) }
        ensures kept { OnErr result (self.new ≡ self.old) }
    {
        if !self.group().has_sent(name, packet) {
            return Ok(None);
        }
        match self.take_own(alloc, packet) {
            Ok(taken) => Ok(Some(taken)),
            Err(failed) => Err(failed),
        }
    }
}
