//! How a node learns the cut of its current period.
ghost use Rattle.std.specs.Prelude.{◌≡◌, ℕ, ◌<◌, length, IfOk, OnErr, None};
ghost use Rattle.std.specs.Arc.{arc_value};
ghost use Rattle.metering_model.specs.World.{Accepted, Decided};
ghost use Rattle.group_node.specs.Handling.{Does};

use crate::nodes::Node;
use node_kept::{Acceptor, Ballot, Tally, Vote};
use period_cut::{Cut, Period};
use std::alloc::{AllocError, Global};
use std::sync::Arc;

impl Node {
    /// A node that has learned the period tells its cut.
    pub(crate) fn on_decided(
        &mut self,
        alloc: Global,
        period: Period,
        cut: &Arc<Cut>,
    ) -> Result<Option<Period>, AllocError>
        requires { length (arc_value cut.now) ≡ self.old.agents }
        ensures does { IfOk result
            (λ learns. (base i : ℕ) → Does base i
            (Decided period (arc_value cut.now)) self.old self.new None learns) }
        ensures kept { OnErr result (self.new ≡ self.old) }
    {
        if period.number() != self.current_period() {
            return Ok(None);
        }
        let cut = Arc::try_clone(cut)?;
        let kept = &mut self.kept;
        kept.learned.push(cut)?;
        kept.acceptor = Acceptor::new();
        self.attempt = None;
        self.tally = Tally::new(alloc, self.voters);
        Ok(Some(period))
    }

    /// A node has accepted a cut. Room for one more cut is made before the node is counted.
    pub(crate) fn on_accepted(
        &mut self,
        alloc: Global,
        from: u8,
        period: Period,
        ballot: Ballot,
        cut: &Arc<Cut>,
    ) -> Result<Option<Period>, AllocError>
        requires from { from < self.old.voters }
        requires cut { length (arc_value cut.now) ≡ self.old.agents }
        ensures does { IfOk result
            (λ learns. (base i : ℕ) → Does base i
            (Accepted from period ballot (arc_value cut.now)) self.old self.new None learns) }
        ensures kept { OnErr result (self.new ≡ self.old) }
    {
        if period.number() != self.current_period() {
            return Ok(None);
        }
        let vote = Vote {
            ballot,
            cut: Arc::try_clone(cut)?,
        };
        let kept = &mut self.kept;
        if kept.learned.try_reserve(1).is_err() {
            return Err(AllocError);
        }
        let Some(cut) = self.tally.on_accepted(from, vote)? else {
            return Ok(None);
        };
        kept.learned.push(cut).unwrap();
        kept.acceptor = Acceptor::new();
        self.attempt = None;
        self.tally = Tally::new(alloc, self.voters);
        Ok(Some(period))
    }
}
