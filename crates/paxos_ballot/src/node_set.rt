//! Sets of nodes, in 16 bytes.
ghost use Rattle.std.specs.Prelude.{◌≡◌, ◌<◌, ◌≤◌, length};
ghost use Rattle.metering_model.specs.Ballot.{nobody, with_node, has_majority};
ghost use Rattle.metering_model.specs.Limits.{most_nodes};

use crate::ballots::majority;
use std::marker::Model;

/// Some of so many nodes: bit i stands for node i.
#[derive(Drop)]
pub(crate) struct NodeSet {
    nodes: u8,
    bits: u128,
}

impl Model for NodeSet {
    ghost use Rattle.metering_model.specs.Ballot as model;
    ghost use Rattle.paxos_ballot.specs.Inner.NodeMarks.{marks_of, IsNodeSet};

    ghost Value = { model.Nodes };

    ghost view = { λ set. marks_of set.nodes set.bits };

    ghost invariant = { λ set. IsNodeSet set.nodes set.bits };
}

impl NodeSet {
    pub(crate) fn nobody(nodes: u8) -> NodeSet
        requires { nodes ≤ most_nodes }
        ensures { result ≡ nobody nodes }
    {
        NodeSet { nodes, bits: 0 }
    }

    /// These nodes and one more.
    pub(crate) fn with(&self, node: u8) -> NodeSet
        requires { node < length self.now }
        ensures { result ≡ with_node node self.now }
    {
        let nodes = self.nodes;
        let mark = 1 << u32::from(node);
        NodeSet {
            nodes,
            bits: self.bits | mark,
        }
    }

    pub(crate) fn has_majority(&self) -> bool
        ensures { result ≡ has_majority (length self.now) self.now }
    {
        u32::from(majority(self.nodes)) <= self.bits.count_ones()
    }
}
