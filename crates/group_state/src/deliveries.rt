//! A packet is delivered.

ghost use Rattle.std.specs.Prelude.{◌≡◌, ◌≤◌, Err, length, map, IfOk, OnErr, MatchOption};
ghost use Rattle.metering_model.specs.Dates.{IsBaseMonth};
ghost use Rattle.metering_model.specs.World.{Deliver};
ghost use Rattle.metering_model.specs.Step.{on_delivery, step};
ghost use Rattle.metering_model.specs.Limits.{most_packets};
ghost use Rattle.group_node.specs.Packets.{packet_of};
ghost use Rattle.group_events.specs.Replies.{reply_of};
ghost use Rattle.group_state.specs.Reached.{IsReached};
ghost use Rattle.group_state.specs.Inner.Allowed.{HandsOver, IsSentAmong, MayDeliver};

use crate::GroupState;
use group_events::Reply;
use group_node::{Node, Packet};
use metering_model::Refusal;
use std::alloc::{AllocError, Global};
use utc_calendar::Month;

/// Hands packet k to node i, and adds what it sends to the packets. Room for that is made first.
fn hand_over(
    alloc: Global,
    packets: &mut Vec<Packet>,
    node: &mut Node,
    k: usize,
    i: u8,
    base: Month,
) -> Result<Reply, AllocError>
    requires few { length packets.old.items ≤ most_packets }
    requires base { IsBaseMonth base }
    requires sent { IsSentAmong packets.old.items k node.old }
    ensures ok { IfOk result (λ reply.
        HandsOver base i k (map packet_of packets.old.items)
        (map packet_of packets.new.items) node.old node.new (reply_of reply)) }
    ensures packets_kept { OnErr result (packets.new.items ≡ packets.old.items) }
    ensures node_kept { OnErr result (node.new ≡ node.old) }
{
    packets.reserve(1)?;
    let number = packets.len() as u32;
    let handled = node.handle(alloc, i, base, &packets[k])?;
    let learned = handled.learns;
    match handled.sends {
        Some(answer) => {
            packets.push_reserved(answer);
            Ok(Reply::Delivered {
                sent: Some(number),
                learned,
            })
        }
        None => Ok(Reply::Delivered {
            sent: None,
            learned,
        }),
    }
}

impl GroupState {
    /// Why a packet is not delivered to a node: there is no such packet, no such node, or no room for what it would
    /// send.
    fn delivery_refusal(&self, packet: u32, node: u8) -> Option<Refusal>
        requires { IsReached self.now }
        ensures { MatchOption result
            (MayDeliver self.now packet node)
            (λ refusal. on_delivery self.now packet node ≡ Err refusal) }
    {
        let Some(what) = self.packet(packet) else {
            return Some(Refusal::NoPacket);
        };
        let Some(taker) = self.node(node) else {
            return Some(Refusal::NoNode);
        };
        if self.has_room() {
            return None;
        }
        if taker.sends(node, what) {
            Some(Refusal::WorldFull)
        } else {
            None
        }
    }

    /// Delivers a packet to a node, also one that it had before, and sends what the node answers. An error is an
    /// allocation failure, and leaves the world as it was.
    pub fn deliver(&mut self, alloc: Global, packet: u32, node: u8) -> Result<Reply, AllocError>
        requires reached { IsReached self.old }
        ensures ok { IfOk result
            (λ reply. (reply_of reply, self.new) ≡ step self.old (Deliver packet node)) }
        ensures kept { OnErr result (self.new ≡ self.old) }
    {
        if let Some(refusal) = self.delivery_refusal(packet, node) {
            return Ok(Reply::Refused(refusal));
        }
        let base = self.sheet.base_month();
        let reply = hand_over(
            alloc,
            &mut self.packets,
            &mut self.nodes[usize::from(node)],
            packet as usize,
            node,
            base,
        )?;
        Ok(reply)
    }
}
