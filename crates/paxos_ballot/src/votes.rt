//! Votes, each counted once: a learner's tally.
ghost use Rattle.std.specs.Prelude.{◌≡◌, ◌<◌, ◌≤◌, [], OnOk, OnErr, IfOk, if◌then◌else◌, Some, None, option_map};
ghost use Rattle.std.specs.Arc.{arc_value};
ghost use Rattle.std.specs.BTreeMap.{insert_entry};
ghost use Rattle.std.specs.Ordering.{nat_cmp};
ghost use Rattle.metering_model.specs.Ballot.{nobody, with_node, accepting_at, with_accepted, has_majority};
ghost use Rattle.metering_model.specs.Limits.{most_nodes};

use crate::ballots::Vote;
use crate::node_set::NodeSet;
use period_cut::Cut;
use std::alloc::{AllocError, Global};
use std::collections::BTreeMap;
use std::marker::Model;
use std::sync::Arc;

/// Which nodes accepted at which ballot.
#[derive(Drop)]
pub struct Tally {
    nodes: u8,
    sets: BTreeMap<u32, NodeSet>,
}

impl Model for Tally {
    ghost use Rattle.paxos_ballot.specs.TallyAmong.{TallyAmong};
    ghost use Rattle.paxos_ballot.specs.Inner.Tallies.{IsTally};

    ghost Value = { TallyAmong };

    ghost view = { λ t. record { nodes = t.nodes; accepting = t.sets.entries } };

    ghost invariant = { λ t. IsTally t.nodes t.sets.entries };
}

impl Tally {
    /// A tally among that many nodes, at most 99, in which nobody has accepted.
    pub fn new(alloc: Global, nodes: u8) -> Tally
        requires { nodes ≤ most_nodes }
        ensures nodes { result.nodes ≡ nodes }
        ensures accepting { result.accepting ≡ [] }
    {
        Tally {
            nodes,
            sets: BTreeMap::new(alloc),
        }
    }

    /// Counts that a node accepted a vote, and returns the vote's cut where a majority has now accepted at that ballot.
    /// An error is an allocation failure, and leaves the tally as it was.
    pub fn on_accepted(&mut self, from: u8, vote: Vote) -> Result<Option<Arc<Cut>>, AllocError>
        requires { from < self.old.nodes }
        ensures nodes { self.new.nodes ≡ self.old.nodes }
        ensures accepting { OnOk result
            (self.new.accepting
            ≡ with_accepted self.old.nodes from vote.ballot self.old.accepting) }
        ensures cut { IfOk result
            (λ cut. option_map arc_value cut
            ≡ (if has_majority self.old.nodes
            (accepting_at self.old.nodes vote.ballot self.new.accepting) then Some vote.cut else
            None)) }
        ensures kept { OnErr result (self.new ≡ self.old) }
    {
        let ballot = vote.ballot.number();
        let is_chosen = match self.sets.get_mut(&ballot) {
            Some(accepting) => {
                *accepting = accepting.with(from);
                accepting.has_majority()
            }
            None => self.put_first(ballot, from)?,
        };
        Ok(is_chosen.then_some(vote.cut))
    }

    // Counts the first that accepted at a ballot, and returns whether it is a majority.
    fn put_first(&mut self, ballot: u32, from: u8) -> Result<bool, AllocError>
        requires { from < self.old.nodes }
        ensures nodes { self.new.nodes ≡ self.old.nodes }
        ensures accepting { OnOk result
            (self.new.accepting
            ≡ insert_entry nat_cmp self.old.accepting ballot
            (with_node from (nobody self.old.nodes))) }
        ensures chosen { IfOk result (λ is_chosen. is_chosen
            ≡ has_majority self.old.nodes (with_node from (nobody self.old.nodes))) }
        ensures kept { OnErr result (self.new ≡ self.old) }
    {
        let accepting = NodeSet::nobody(self.nodes).with(from);
        let is_chosen = accepting.has_majority();
        self.sets.insert(ballot, accepting)?;
        Ok(is_chosen)
    }
}
