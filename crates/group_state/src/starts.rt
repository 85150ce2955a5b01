//! A node begins a ballot of its own, or restarts.

ghost use Rattle.std.specs.Prelude.{◌≡◌, ◌<◌, Err, length, map, IfOk, OnErr, MatchResult};
ghost use Rattle.metering_model.specs.World.{Restart, Start};
ghost use Rattle.metering_model.specs.Step.{on_start, step};
ghost use Rattle.metering_model.specs.Limits.{most_packets, most_rounds};
ghost use Rattle.group_node.specs.Packets.{packet_of};
ghost use Rattle.group_events.specs.Replies.{reply_of};
ghost use Rattle.group_state.specs.Inner.Allowed.{MayBegin};
ghost use Rattle.group_state.specs.Inner.Members.{Begins};

use crate::GroupState;
use group_events::{Period, Reply};
use group_node::{Node, Packet};
use metering_model::Refusal;
use std::alloc::{AllocError, Global};

/// Node i begins its next ballot, of that period, and its first packet stands after those that were there.
fn begin(
    packets: &mut Vec<Packet>,
    node: &mut Node,
    i: u8,
    period: Period,
) -> Result<Reply, AllocError>
    requires few { length packets.old.items < most_packets }
    requires votes { i < node.old.voters }
    requires round { node.old.node.kept.round < most_rounds }
    ensures ok { IfOk result (λ reply.
        Begins i period (map packet_of packets.old.items)
        (map packet_of packets.new.items) node.old node.new (reply_of reply)) }
    ensures packets_kept { OnErr result (packets.new.items ≡ packets.old.items) }
    ensures node_kept { OnErr result (node.new ≡ node.old) }
{
    packets.reserve(1)?;
    let packet = packets.len() as u32;
    let ballot = node.start(i);
    packets.push_reserved(Packet::Prepare { period, ballot });
    Ok(Reply::Started { ballot, packet })
}

impl GroupState {
    /// The period for which a node may begin a ballot, or why it may begin none.
    fn period_to_begin(&self, node: u8) -> Result<Period, Refusal>
        ensures { MatchResult result (λ period. MayBegin self.now node period)
            (λ refusal. on_start self.now node ≡ Err refusal) }
    {
        let Some(starter) = self.node(node) else {
            return Err(Refusal::NoNode);
        };
        let period = starter.period_to_begin(node)?;
        if !self.has_room() {
            return Err(Refusal::WorldFull);
        }
        Ok(period)
    }

    /// A voter begins a ballot that no node has used before, and asks for promises. An error is an allocation failure,
    /// and leaves the world as it was.
    pub fn start(&mut self, node: u8) -> Result<Reply, AllocError>
        ensures ok { IfOk result
            (λ reply. (reply_of reply, self.new) ≡ step self.old (Start node)) }
        ensures kept { OnErr result (self.new ≡ self.old) }
    {
        let period = match self.period_to_begin(node) {
            Ok(period) => period,
            Err(refusal) => return Ok(Reply::Refused(refusal)),
        };
        let reply = begin(
            &mut self.packets,
            &mut self.nodes[usize::from(node)],
            node,
            period,
        )?;
        Ok(reply)
    }

    /// A node drops its attempt and its tally, and keeps round, learned cuts, promise, vote and batches.
    pub fn restart(&mut self, alloc: Global, node: u8) -> Reply
        ensures { (reply_of result, self.new) ≡ step self.old (Restart node) }
    {
        if usize::from(node) >= self.nodes.len() {
            return Reply::Refused(Refusal::NoNode);
        }
        let node = &mut self.nodes[usize::from(node)];
        node.restart(alloc);
        Reply::Restarted
    }
}
