//! A node as a process of its own: how it goes on, and what it tells of itself.

ghost use Rattle.std.specs.Prelude.{◌≡◌, ◌+◌, ◌<◌, ◌≤◌, IfOk, None, Some, MatchOption};
ghost use Rattle.metering_model.specs.Holding.{held};
ghost use Rattle.metering_model.specs.KeptText.{kept_text};
ghost use Rattle.metering_model.specs.Limits.{most_periods, most_rounds};
ghost use Rattle.metering_model.specs.World.{current_period, wake};
ghost use Rattle.group_events.specs.Batches.{batch_of};
ghost use Rattle.group_process.specs.Selves.{kept_of_node};

use crate::groups::Group;
use group_events::{Kept, OwnedBatch};
use group_node::Node;
use std::alloc::{AllocError, Global};
use std::marker::Model;

/// A node of a group as a process of its own: it sees what it keeps and what it is handed, and nothing else.
#[derive(Drop)]
pub struct NodeProcess {
    pub(crate) group: Group,
    pub(crate) number: u8,
    pub(crate) node: Node,
}

impl Model for NodeProcess {
    ghost use Rattle.std.specs.Prelude.{◌≡◌};
    ghost use Rattle.group_process.specs.Selves.{NodeSelf, IsInGroup};

    ghost Value = { NodeSelf };

    ghost view = { λ n. record { group = n.group; number = n.number; node = n.node.node } };

    ghost invariant = { λ n.
        (n.node.voters ≡ n.group.voters) × (n.node.agents ≡ n.group.agents)
        × IsInGroup (record { group = n.group; number = n.number; node = n.node.node }) };
}

impl NodeProcess {
    /// The node of that number goes on with what it stored last: for one that has stored nothing, what a new one keeps.
    pub fn go_on(alloc: Global, group: Group, number: u8, kept: Kept) -> NodeProcess
        requires number { number < group.voters + group.observers }
        requires kept { kept.agents ≡ group.agents }
        ensures { result ≡ record { group = group; number = number; node = wake kept.kept } }
    {
        // For the proof alone: its type says how many voters there may be.
        let voters = group.voters;
        NodeProcess {
            node: Node::wake(alloc, voters, kept),
            group,
            number,
        }
    }

    /// The node's group.
    pub fn group(&self) -> &Group
        ensures { result.now ≡ self.now.group }
    {
        &self.group
    }

    /// The first period that it has not learned, at most 1,200.
    pub fn current_period(&self) -> u16
        ensures value { result ≡ current_period self.now.node }
        ensures within { result ≤ most_periods }
    {
        self.node.current_period()
    }

    /// How many ballots it has begun, at most 10,000.
    pub fn round(&self) -> u16
        ensures value { result ≡ self.now.node.kept.round }
        ensures within { result ≤ most_rounds }
    {
        self.node.round()
    }

    /// The text of what it keeps. An error is an allocation failure.
    pub fn write_kept(&self, alloc: Global) -> Result<Vec<u8>, AllocError>
        ensures { IfOk result (λ text. text.items ≡ kept_text (kept_of_node self.now)) }
    {
        self.node.write_kept(alloc)
    }

    /// The batch of an agent at a sequence, if it holds it.
    pub fn held(&self, agent: u8, seq: u32) -> Option<&OwnedBatch>
        ensures { MatchOption result (held self.now.node.kept.holding agent seq ≡ None)
            (λ batch. held self.now.node.kept.holding agent seq ≡ Some (batch_of batch.now)) }
    {
        let store = self.node.store();
        let agents = store.agents();
        if agent == 0 || agent > agents {
            return None;
        }
        store.get(agent, seq)
    }
}
