//! What a node does with a packet.
ghost use Rattle.std.specs.Prelude.{◌≡◌, ℕ, ◌≤◌, IfOk, OnOk, OnErr, MatchResult, Ok, Err, None};
ghost use Rattle.std.specs.Option.{option_map};
ghost use Rattle.std.specs.Arc.{arc_value};
ghost use Rattle.metering_model.specs.World.{CarriesBatch};
ghost use Rattle.batch_view.specs.Batches.{batch_of};
ghost use Rattle.metering_model.specs.Dates.{IsBaseMonth};
ghost use Rattle.group_node.specs.Packets.{packet_of, IsPacketAmong};
ghost use Rattle.group_node.specs.Handling.{Does, Answers};

use crate::nodes::Node;
use crate::packets::{Handled, Packet};
use batch_view::OwnedBatch;
use period_cut::{Month, Period};
use std::alloc::{AllocError, Global};
use std::sync::Arc;

fn sending(sends: Option<Packet>) -> Handled
    ensures { result ≡ record { sends = sends; learns = None } }
{
    Handled {
        sends,
        learns: None,
    }
}

fn learning(learns: Option<Period>) -> Handled
    ensures { result ≡ record { sends = None; learns = learns } }
{
    Handled {
        sends: None,
        learns,
    }
}

/// What was handled by a handler that sends.
fn if_sent(sends: Result<Option<Packet>, AllocError>) -> Result<Handled, AllocError>
    ensures { MatchResult sends (λ s. result ≡ Ok (record { sends = s; learns = None }))
        (λ e. result ≡ Err e) }
{
    match sends {
        Ok(sends) => Ok(sending(sends)),
        Err(error) => Err(error),
    }
}

/// What was handled by a handler that learns.
fn if_learned(learns: Result<Option<Period>, AllocError>) -> Result<Handled, AllocError>
    ensures { MatchResult learns (λ l. result ≡ Ok (record { sends = None; learns = l }))
        (λ e. result ≡ Err e) }
{
    match learns {
        Ok(learns) => Ok(learning(learns)),
        Err(error) => Err(error),
    }
}

impl Node {
    /// Takes a batch that was journaled; one that is there already stays.
    fn on_batch(&mut self, batch: &Arc<OwnedBatch>) -> Result<(), AllocError>
        requires { (batch_of (arc_value batch.now)).agent ≤ self.old.agents }
        ensures does { OnOk result
            ((base i : ℕ) → Does base i
            (CarriesBatch (batch_of (arc_value batch.now))) self.old self.new None None) }
        ensures kept { OnErr result (self.new ≡ self.old) }
    {
        let batch = Arc::try_clone(batch)?;
        let kept = &mut self.kept;
        kept.store.put(batch)?;
        Ok(())
    }

    /// Whether node i would send something, if it got the packet now.
    pub fn sends(&self, i: u8, packet: &Packet) -> bool
        requires { IsPacketAmong self.now.voters self.now.agents (packet_of packet.now) }
        ensures { Answers i (packet_of packet.now) self.now result }
    {
        match packet {
            Packet::Batch(_) => false,
            Packet::Prepare { period, ballot } => {
                self.has_learned(*period) || (self.votes(i) && self.promises(*period, *ballot))
            }
            Packet::Promise {
                from,
                period,
                ballot,
                ..
            } => self.votes(i) && self.proposes(*from, *period, *ballot),
            Packet::Accept { period, ballot, .. } => {
                self.has_learned(*period) || (self.votes(i) && self.accepts(*period, *ballot))
            }
            Packet::Accepted { .. } => false,
            Packet::Decided { .. } => false,
        }
    }

    /// Node i handles a packet, in a group of this base month. Returns the packet that it sends, and the period that it
    /// learns. An error is an allocation failure, and leaves the node as it was.
    pub fn handle(
        &mut self,
        alloc: Global,
        i: u8,
        base: Month,
        packet: &Packet,
    ) -> Result<Handled, AllocError>
        requires base { IsBaseMonth base }
        requires packet { IsPacketAmong self.old.voters self.old.agents (packet_of packet.now) }
        ensures does { IfOk result
            (λ handled. Does base i (packet_of packet.now) self.old self.new
            (option_map packet_of handled.sends) handled.learns) }
        ensures kept { OnErr result (self.new ≡ self.old) }
    {
        match packet {
            Packet::Batch(batch) => {
                self.on_batch(batch)?;
                Ok(sending(None))
            }
            Packet::Prepare { period, ballot } => if_sent(self.on_prepare(i, *period, *ballot)),
            Packet::Promise {
                from,
                period,
                ballot,
                vote,
            } => if_sent(self.on_promise(alloc, i, base, *from, *period, *ballot, vote)),
            Packet::Accept {
                period,
                ballot,
                cut,
            } => if_sent(self.on_accept(i, *period, *ballot, cut)),
            Packet::Accepted {
                from,
                period,
                ballot,
                cut,
            } => if_learned(self.on_accepted(alloc, *from, *period, *ballot, cut)),
            Packet::Decided { period, cut } => if_learned(self.on_decided(alloc, *period, cut)),
        }
    }
}
