//! A node exports a period.

ghost use Rattle.std.specs.Prelude.{◌≡◌, ◌↔◌, IfOk, IsTrue};
ghost use Rattle.std.specs.Arc.{arc_value};
ghost use Rattle.metering_model.specs.Holding.{up_to};
ghost use Rattle.metering_model.specs.World.{Export};
ghost use Rattle.metering_model.specs.Step.{cut_before, snapshot, step};
ghost use Rattle.group_events.specs.Replies.{reply_of};
ghost use Rattle.group_state.specs.Charged.{ChargesAll, IsAllDue};
ghost use Rattle.group_state.specs.Reached.{IsReached};
ghost use Rattle.group_state.specs.Inner.Allowed.{MayTake};

use crate::GroupState;
use group_events::{Cut, Period, Reply, Snapshot};
use group_node::Node;
use metering_model::Refusal;
use std::alloc::{AllocError, Global};
use std::sync::Arc;

impl GroupState {
    /// What the file of a period is made of at a node that has each batch up to its cut.
    fn take_snapshot(
        &self,
        alloc: Global,
        node: &Node,
        period: Period,
        to: &Arc<Cut>,
    ) -> Result<Snapshot, AllocError>
        requires { MayTake self.now.sheet self.now.agents period (arc_value to.now) node.now }
        ensures { IfOk result (λ taken. taken ≡ record {
          period = period;
          from = cut_before self.now.agents node.now.node.kept.learned period;
          to = arc_value to.now;
          batches = up_to (arc_value to.now) node.now.node.kept.holding;
          sheet = self.now.sheet;
          issuer = self.now.issuer;
        }) }
    {
        let from = node.cut_before(alloc, period.number())?;
        let to = Arc::try_clone(to)?;
        let sheet = Arc::try_clone(&self.sheet)?;
        let issuer = Arc::try_clone(&self.issuer)?;
        Snapshot::of(alloc, period, from, to, node.store(), sheet, issuer)
    }

    /// What the file of the period is made of, as the node has learned it, or why that is refused. An error is an
    /// allocation failure.
    pub fn snapshot(
        &self,
        alloc: Global,
        node: u8,
        period: u16,
    ) -> Result<Result<Snapshot, Refusal>, AllocError>
        requires reached { IsReached self.now }
        ensures { IfOk result (λ answer. answer ≡ snapshot self.now node period) }
    {
        let Some(asked) = self.node(node) else {
            return Ok(Err(Refusal::NoNode));
        };
        let (of, to) = match asked.cut_to_export(period) {
            Ok(found) => found,
            Err(refusal) => return Ok(Err(refusal)),
        };
        let taken = self.take_snapshot(alloc, asked, of, to)?;
        Ok(Ok(taken))
    }

    /// Replies with what [`GroupState::snapshot`] returns. An error is an allocation failure.
    pub fn export(&self, alloc: Global, node: u8, period: u16) -> Result<Reply, AllocError>
        requires reached { IsReached self.now }
        ensures { IfOk result (λ reply. (reply_of reply, self.now)
            ≡ step self.now (Export node period)) }
    {
        match self.snapshot(alloc, node, period)? {
            Ok(snapshot) => Ok(Reply::Exported(snapshot)),
            Err(refusal) => Ok(Reply::Refused(refusal)),
        }
    }

    /// Whether a snapshot has of each agent all batches that are journaled above the cut before it, up to the first that is
    /// not due in its month. An error is an allocation failure.
    fn is_all_due(&self, alloc: Global, taken: &Snapshot) -> Result<bool, AllocError>
        ensures { IfOk result (λ all. IsTrue all ↔ IsAllDue self.now taken.now) }
    {
        let from = taken.from();
        if from.agents() != self.agents() {
            return Ok(false);
        }
        let base = self.sheet.base_month();
        let due = self.journals.due_front(alloc, from, taken.period(), base)?;
        Ok(due.same(taken.to()))
    }

    /// Whether the file of the period, as the node has learned it, charges all that is journaled: of each agent each batch
    /// above the cut before, up to the first that is not due in the month. An error is an allocation failure.
    pub fn charges_all(&self, alloc: Global, node: u8, period: u16) -> Result<bool, AllocError>
        requires reached { IsReached self.now }
        ensures { IfOk result (λ all. IsTrue all ↔ ChargesAll self.now node period) }
    {
        let answer = self.snapshot(alloc, node, period)?;
        match answer {
            Ok(taken) => self.is_all_due(alloc, &taken),
            Err(_) => Ok(false),
        }
    }
}
