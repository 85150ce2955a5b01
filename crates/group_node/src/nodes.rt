//! Nodes: how they begin, start and restart, and what they have.
ghost use Rattle.std.specs.Prelude.{◌≡◌, ◌↔◌, IsTrue, ◌+◌, ◌<◌, ◌≤◌, slice_get, IfOk};
ghost use Rattle.std.specs.Option.{option_copied, option_map};
ghost use Rattle.std.specs.Arc.{arc_value};
ghost use Rattle.metering_model.specs.Limits.{most_agents, most_periods, most_nodes, most_rounds};
ghost use Rattle.metering_model.specs.Ballot.{ballot_of};
ghost use Rattle.metering_model.specs.KeptText.{HasText, kept_text};
ghost use Rattle.metering_model.specs.World.{current_period, new_kept, wake};
ghost use Rattle.metering_model.specs.Step.{started_node};
ghost use Rattle.group_node.specs.Nodes.{IsNodeAmong};

use node_kept::{Acceptor, Attempt, Ballot, Kept, Parts, Store, Tally};
use period_cut::Cut;
use std::alloc::{AllocError, Global};
use std::marker::Model;
use std::sync::Arc;

/// A node of a group: what it keeps over a restart, the attempt that it makes, and its tally of the current period.
#[derive(Drop)]
pub struct Node {
    pub(crate) voters: u8,
    pub(crate) kept: Parts,
    pub(crate) attempt: Option<Attempt>,
    pub(crate) tally: Tally,
}

impl Model for Node {
    ghost use Rattle.std.specs.Prelude.{◌≡◌};
    ghost use Rattle.group_node.specs.Nodes.{NodeAmong, IsNodeAmong};

    ghost Value = { NodeAmong };

    ghost view = { λ n. record {
      voters = n.voters;
      agents = n.kept.agents;
      node = record { kept = n.kept.kept; attempt = n.attempt; tally = n.tally.accepting };
    } };

    ghost invariant = { λ n. (n.tally.nodes ≡ n.voters) × IsNodeAmong (record {
      voters = n.voters;
      agents = n.kept.agents;
      node = record { kept = n.kept.kept; attempt = n.attempt; tally = n.tally.accepting };
    }) };
}

impl Node {
    /// A node of a group with so many voters, at most 99, and agents, 1 to 64, which has begun nothing and holds
    /// nothing. An error is an allocation failure.
    pub fn new(alloc: Global, voters: u8, agents: u8) -> Result<Node, AllocError>
        requires voters { voters ≤ most_nodes }
        requires from { 1 ≤ agents }
        requires to { agents ≤ most_agents }
        ensures { IfOk result (λ node. node
            ≡ record { voters = voters; agents = agents; node = wake new_kept }) }
    {
        let store = Store::new(alloc, agents)?;
        let kept = Parts {
            round: 0,
            learned: Vec::new(alloc),
            acceptor: Acceptor::new(),
            store,
        };
        Ok(Node::wake(alloc, voters, Kept::of(kept)))
    }

    /// The node that wakes with what was kept: it makes no attempt, and its tally is empty.
    pub fn wake(alloc: Global, voters: u8, kept: Kept) -> Node
        requires { voters ≤ most_nodes }
        ensures { result ≡ record { voters = voters; agents = kept.agents; node = wake kept.kept } }
    {
        Node {
            voters,
            kept: kept.into_parts(),
            attempt: None,
            tally: Tally::new(alloc, voters),
        }
    }

    /// What the node keeps over a restart.
    pub fn into_kept(self) -> Kept
        ensures { result ≡ record { agents = self.agents; kept = self.node.kept } }
    {
        Kept::of(self.kept)
    }

    /// Drops the attempt and the tally, as a node does that wakes. What it keeps stays.
    pub fn restart(&mut self, alloc: Global)
        ensures { self.new
            ≡ record {
              voters = self.old.voters;
              agents = self.old.agents;
              node = wake self.old.node.kept;
            } }
    {
        self.attempt = None;
        self.tally = Tally::new(alloc, self.voters);
    }

    /// The text of what the node keeps over a restart. An error is an allocation failure.
    pub fn write_kept(&self, alloc: Global) -> Result<Vec<u8>, AllocError>
        ensures { IfOk result (λ text. text.items
            ≡ kept_text (record { agents = self.now.agents; kept = self.now.node.kept })) }
    {
        self.kept.write(alloc)
    }

    /// Whether this is what the node keeps over a restart.
    pub fn keeps(&self, kept: &Kept) -> bool
        ensures same { IsTrue result
            ↔ (kept.now ≡ record { agents = self.now.agents; kept = self.now.node.kept }) }
        ensures text { HasText kept.now }
    {
        kept.parts().same(&self.kept)
    }

    /// Begins the next round of node i, which has to vote, and returns its ballot. It has begun at most 9,999 rounds
    /// before.
    pub fn start(&mut self, i: u8) -> Ballot
        requires votes { i < self.old.voters }
        requires round { self.old.node.kept.round < most_rounds }
        ensures ballot { result ≡ ballot_of (self.old.node.kept.round + 1) i self.old.voters }
        ensures state { self.new ≡ record {
          voters = self.old.voters;
          agents = self.old.agents;
          node = started_node self.old.voters result self.old.node;
        } }
    {
        let kept = &mut self.kept;
        kept.round += 1;
        let ballot = Ballot::of(kept.round, i, self.voters);
        self.attempt = Some(Attempt::new(ballot, self.voters));
        ballot
    }

    /// How many nodes of its group vote. What the node has is within its limits.
    pub fn voters(&self) -> u8
        ensures value { result ≡ self.now.voters }
        ensures within { IsNodeAmong self.now }
    {
        self.voters
    }

    /// How many ballots the node has begun, at most 10,000.
    pub fn round(&self) -> u16
        ensures value { result ≡ self.now.node.kept.round }
        ensures within { result ≤ most_rounds }
    {
        let kept = &self.kept;
        kept.round
    }

    /// The first period that the node has not learned: how many cuts it has learned, at most 1,200.
    pub fn current_period(&self) -> u16
        ensures value { result ≡ current_period self.now.node }
        ensures within { result ≤ most_periods }
    {
        let kept = &self.kept;
        kept.learned.len() as u16
    }

    /// The cut that the node has learned for a period; None where it has learned none.
    pub fn learned(&self, period: u16) -> Option<&Arc<Cut>>
        ensures { option_map arc_value (option_copied result)
            ≡ slice_get self.now.node.kept.learned period }
    {
        let kept = &self.kept;
        kept.learned.get(usize::from(period))
    }

    /// What the node has promised and accepted in its current period.
    pub fn acceptor(&self) -> &Acceptor
        ensures { result.now ≡ self.now.node.kept.acceptor }
    {
        let kept = &self.kept;
        &kept.acceptor
    }

    /// The batches that the node holds.
    pub fn store(&self) -> &Store
        ensures { result.now
            ≡ record { agents = self.now.agents; batches = self.now.node.kept.holding } }
    {
        let kept = &self.kept;
        &kept.store
    }
}
