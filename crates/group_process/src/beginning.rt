//! A node begins a ballot of its own.

ghost use Rattle.std.specs.Prelude.{◌≡◌, IfOk, OnErr};
ghost use Rattle.process_laws.specs.LocalSteps.{BeginBallot};
ghost use Rattle.group_process.specs.Added.{AddsJust, increment_after};
ghost use Rattle.group_process.specs.Answers.{Does, begun_answer};
ghost use Rattle.group_process.specs.Selves.{kept_of_node};

use crate::added::Added;
use crate::nodes::NodeProcess;
use crate::refusals::ProcessRefusal;
use group_node::Packet;
use node_kept::Ballot;

/// What came of a ballot that a node began.
#[derive(Drop)]
pub struct Begun {
    pub ballot: Ballot,
    /// What the node sends: the Prepare of its period and of that ballot.
    pub sends: Packet,
    /// What it keeps more than before.
    pub added: Added,
}

impl NodeProcess {
    /// Begins the next ballot in the node's period, and asks for promises. Its round is what the node keeps more than before.
    pub fn begin(&mut self) -> Result<Begun, ProcessRefusal>
        ensures does { Does BeginBallot self.old self.new (begun_answer result) }
        ensures adds { IfOk result (λ begun. AddsJust (kept_of_node self.old)
            (kept_of_node self.new) (increment_after begun.added (kept_of_node self.new))) }
        ensures kept { OnErr result (self.new ≡ self.old) }
    {
        let period = match self.node.period_to_begin(self.number) {
            Ok(period) => period,
            Err(refusal) => return Err(ProcessRefusal::OfModel(refusal)),
        };
        let ballot = self.node.start(self.number);
        Ok(Begun {
            ballot,
            sends: Packet::Prepare { period, ballot },
            added: Added::Round,
        })
    }
}
