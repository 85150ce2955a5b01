//! The world as it stands.

ghost use Rattle.std.specs.Prelude.{◌≡◌, ◌+◌, ◌≤◌, ◌++◌, ◌∷◌, [], IfOk, OnOk, IfSome, replicate, slice_get};
ghost use Rattle.std.specs.Option.{option_copied, option_map};
ghost use Rattle.std.specs.Arc.{arc_value};
ghost use Rattle.metering_model.specs.World.{new_kept, opening, voter_count, wake};
ghost use Rattle.metering_model.specs.Limits.{most_agents, most_nodes};
ghost use Rattle.group_node.specs.Packets.{packet_of};
ghost use Rattle.group_state.specs.Inner.Members.{IsMember};

use group_events::Sheet;
use group_node::{Node, Packet};
use journal_rules::Store;
use sheet_text::Issuer;
use std::alloc::{AllocError, Global};
use std::marker::Model;
use std::sync::Arc;

/// The state of a group: the sheet and the issuer, the batches that were journaled, the packets that were ever sent, by
/// number, and the nodes, of which the first vote.
#[derive(Drop)]
pub struct GroupState {
    pub(crate) sheet: Arc<Sheet>,
    pub(crate) issuer: Arc<Issuer>,
    pub(crate) journals: Store,
    pub(crate) packets: Vec<Packet>,
    pub(crate) voters: u8,
    pub(crate) nodes: Vec<Node>,
}

impl Model for GroupState {
    ghost use Rattle.std.specs.Prelude.{map};
    ghost use Rattle.std.specs.Arc.{arc_value};
    ghost use Rattle.metering_model.specs.Limits.{most_packets};
    ghost use Rattle.metering_model.specs.World.{World};
    ghost use Rattle.group_node.specs.Packets.{packet_of};
    ghost use Rattle.group_state.specs.Inner.Members.{AreMembers};

    ghost Value = { World };

    ghost view = { λ s. record {
      sheet = arc_value s.sheet;
      issuer = arc_value s.issuer;
      agents = s.journals.agents;
      journals = s.journals.batches;
      room = most_packets;
      packets = map packet_of s.packets.items;
      voters = s.voters;
      nodes = map (λ n. n.node) s.nodes.items;
    } };

    ghost invariant = { λ s. AreMembers s.voters s.journals.agents s.nodes.items };
}

/// Adds a node of a group with so many voters and agents, which has begun nothing and holds nothing.
fn add_node(alloc: Global, made: &mut Vec<Node>, voters: u8, agents: u8) -> Result<(), AllocError>
    requires voters_to { voters ≤ most_nodes }
    requires from { 1 ≤ agents }
    requires to { agents ≤ most_agents }
    ensures { OnOk result (made.new.items ≡ made.old.items
        ++ record { voters = voters; agents = agents; node = wake new_kept } ∷ []) }
{
    made.push(Node::new(alloc, voters, agents)?)?;
    Ok(())
}

/// So many nodes of a group with so many voters and agents, which have begun nothing and hold nothing.
fn new_nodes(alloc: Global, nodes: u8, voters: u8, agents: u8) -> Result<Vec<Node>, AllocError>
    requires voters_to { voters ≤ most_nodes }
    requires from { 1 ≤ agents }
    requires to { agents ≤ most_agents }
    ensures { IfOk result (λ made. made.items
        ≡ replicate nodes (record { voters = voters; agents = agents; node = wake new_kept })) }
{
    let mut made = Vec::with_capacity(alloc, usize::from(nodes))?;
    for _ in 0..nodes {
        add_node(alloc, &mut made, voters, agents)?;
    }
    Ok(made)
}

impl GroupState {
    /// A group of so many voters, at least 1, and observers, at most 99 with the voters, and 1 to 64 agents, before any
    /// event. An error is an allocation failure.
    pub fn new(
        alloc: Global,
        voters: u8,
        observers: u8,
        agents: u8,
        sheet: Arc<Sheet>,
        issuer: Arc<Issuer>,
    ) -> Result<GroupState, AllocError>
        requires voters_from { 1 ≤ voters }
        requires nodes_to { voters + observers ≤ most_nodes }
        requires agents_from { 1 ≤ agents }
        requires agents_to { agents ≤ most_agents }
        ensures { IfOk result (λ state. state
            ≡ opening voters observers agents (arc_value sheet) (arc_value issuer)) }
    {
        let journals = Store::new(alloc, agents)?;
        let made = new_nodes(alloc, voters + observers, voters, agents)?;
        Ok(GroupState {
            sheet,
            issuer,
            journals,
            packets: Vec::new(alloc),
            voters,
            nodes: made,
        })
    }

    /// The sheet by which the group's usage is priced.
    pub fn sheet(&self) -> &Sheet
        ensures { result.now ≡ self.now.sheet }
    {
        &self.sheet
    }

    /// The packet of that number.
    pub(crate) fn packet(&self, packet: u32) -> Option<&Packet>
        ensures { option_map packet_of (option_copied result) ≡ slice_get self.now.packets packet }
    {
        self.packets.get(packet as usize)
    }

    /// The node of that number.
    pub(crate) fn node(&self, node: u8) -> Option<&Node>
        ensures node { option_map (λ n. n.node) (option_copied result)
            ≡ slice_get self.now.nodes node }
        ensures member { IfSome result
            (λ n. IsMember (voter_count self.now) self.now.agents n.now) }
    {
        self.nodes.get(usize::from(node))
    }

    /// The number of agents.
    pub(crate) fn agents(&self) -> u8
        ensures value { result ≡ self.now.agents }
        ensures range { (1 ≤ result) × (result ≤ most_agents) }
    {
        self.journals.agents()
    }
}
