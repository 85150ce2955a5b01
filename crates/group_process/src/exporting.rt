//! A node exports a period.

ghost use Rattle.std.specs.Prelude.{◌≡◌, ◌+◌, ◌<◌, true, length, take, IfOk, None, Some, slice_get};
ghost use Rattle.std.specs.Arc.{arc_value};
ghost use Rattle.metering_model.specs.Cut.{zero_cut};
ghost use Rattle.metering_model.specs.Step.{cut_before, first_missing};
ghost use Rattle.process_laws.specs.LocalSteps.{are_growing, exporting, is_fit};
ghost use Rattle.group_process.specs.Answers.{exported_answer};
ghost use Rattle.group_process.specs.Inner.Growing.{goes_on};
ghost use Rattle.group_process.specs.Inner.Snapshots.{snapshot_up_to};

use crate::nodes::NodeProcess;
use crate::refusals::ProcessRefusal;
use group_events::{Cut, Period, Snapshot};
use group_node::Node;
use journal_rules::first_broken_up_to;
use std::alloc::{AllocError, Global};
use std::sync::Arc;

/// Whether the cut of a period, which a node has to have learned, goes on from that of the period before. The first goes on from
/// the zero cut, as each entry is at least 0.
fn goes_on(node: &Node, period: u16) -> bool
    requires { period < length node.now.node.kept.learned }
    ensures { result ≡ goes_on (zero_cut node.now.agents) node.now.node.kept.learned period }
{
    // For the proof alone: its clause says that each learned cut has an entry for each agent.
    node.voters();
    if period == 0 {
        return true;
    }
    let Some(before) = node.learned(period - 1) else {
        return false;
    };
    let Some(cut) = node.learned(period) else {
        return false;
    };
    cut.at_least(before)
}

/// Whether the cuts that a node has learned up to a period, which has to be one of them, each go on from the one before.
fn has_growing_cuts(node: &Node, period: u16) -> bool
    requires { period < length node.now.node.kept.learned }
    ensures { result ≡ are_growing (zero_cut node.now.agents)
        (take (period + 1) node.now.node.kept.learned) }
{
    // For the proof alone: its clause says that there are no more periods than 1,200.
    node.current_period();
    for next in 0..period + 1 {
        if !goes_on(node, next) {
            return false;
        }
    }
    true
}

impl NodeProcess {
    /// Whether a file may be made of a period, which was learned, and up to whose cut the node has each batch.
    fn is_fit(&self, period: u16, to: &Cut) -> bool
        requires learned { slice_get self.now.node.kept.learned period ≡ Some to.now }
        requires whole { first_missing self.now.node.kept.holding to.now ≡ None }
        ensures { result ≡ is_fit self.now.group self.now.node
            (snapshot_up_to self.now.group self.now.node period to.now) }
    {
        // For the proof alone: its clause says that each learned cut has an entry for each agent.
        self.node.voters();
        has_growing_cuts(&self.node, period)
            && first_broken_up_to(self.node.store(), self.group.sheet(), to).is_none()
    }

    /// What the file of such a period is made of, from the cut before on. An error is an allocation failure.
    fn snapshot(
        &self,
        alloc: Global,
        of: Period,
        from: Arc<Cut>,
        to: &Arc<Cut>,
    ) -> Result<Snapshot, AllocError>
        requires from { arc_value from
            ≡ cut_before self.now.group.agents self.now.node.kept.learned of }
        requires learned { slice_get self.now.node.kept.learned of ≡ Some (arc_value to.now) }
        requires whole { first_missing self.now.node.kept.holding (arc_value to.now) ≡ None }
        requires fit { is_fit self.now.group self.now.node
            (snapshot_up_to self.now.group self.now.node of (arc_value to.now)) ≡ true }
        ensures { IfOk result (λ taken. taken
            ≡ snapshot_up_to self.now.group self.now.node of (arc_value to.now)) }
    {
        // For the proof alone: their clauses say that each learned cut has an entry for each agent, and that the batches are a
        // holding.
        let store = self.node.store();
        self.node.voters();
        store.agents();
        let Ok(to) = Arc::try_clone(to) else {
            return Err(AllocError);
        };
        let Ok(sheet) = Arc::try_clone(self.group.sheet()) else {
            return Err(AllocError);
        };
        let Ok(issuer) = Arc::try_clone(self.group.issuer()) else {
            return Err(AllocError);
        };
        Snapshot::of(alloc, of, from, to, store, sheet, issuer)
    }

    /// What the file of a period is made of that was learned, and up to whose cut the node has each batch, or why there is none.
    /// An error is an allocation failure.
    fn export_up_to(
        &self,
        alloc: Global,
        period: u16,
        of: Period,
        to: &Arc<Cut>,
    ) -> Result<Result<Snapshot, ProcessRefusal>, AllocError>
        requires of { of ≡ period }
        requires learned { slice_get self.now.node.kept.learned period ≡ Some (arc_value to.now) }
        requires whole { first_missing self.now.node.kept.holding (arc_value to.now) ≡ None }
        ensures { IfOk result (λ answer.
            exported_answer answer ≡ exporting self.now.group self.now.node period) }
    {
        let Ok(from) = self.node.cut_before(alloc, period) else {
            return Err(AllocError);
        };
        if !self.is_fit(period, to) {
            return Ok(Err(ProcessRefusal::Unfit));
        }
        match self.snapshot(alloc, of, from, to) {
            Ok(taken) => Ok(Ok(taken)),
            Err(failed) => Err(failed),
        }
    }

    /// What the file of a period is made of, or why there is none. Each batch up to the period's cut is looked at for this,
    /// as it is not known that all that was handed in was given out by a process of the group. An error is an allocation
    /// failure.
    pub fn export(
        &self,
        alloc: Global,
        period: u16,
    ) -> Result<Result<Snapshot, ProcessRefusal>, AllocError>
        ensures { IfOk result (λ answer.
            exported_answer answer ≡ exporting self.now.group self.now.node period) }
    {
        let (of, to) = match self.node.cut_to_export(period) {
            Ok(found) => found,
            Err(refusal) => return Ok(Err(ProcessRefusal::OfModel(refusal))),
        };
        self.export_up_to(alloc, period, of, to)
    }
}
