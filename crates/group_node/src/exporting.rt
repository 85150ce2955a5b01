//! Between which cuts a node exports a period.

ghost use Rattle.std.specs.Prelude.{◌≡◌, ◌≤◌, Ok, Err, IfOk, MatchResult, None, Some, slice_get};
ghost use Rattle.std.specs.Arc.{arc_value};
ghost use Rattle.metering_model.specs.Cut.{zero_cut};
ghost use Rattle.metering_model.specs.Limits.{most_agents};
ghost use Rattle.metering_model.specs.Step.{cut_before, first_missing};
ghost use Rattle.group_node.specs.Alone.{cut_to_export};

use crate::nodes::Node;
use metering_model::Refusal;
use period_cut::{Cut, Period};
use std::alloc::{AllocError, Global};
use std::sync::Arc;

/// The cut before the first period, to be shared.
fn shared_zero(alloc: Global, agents: u8) -> Result<Arc<Cut>, AllocError>
    requires from { 1 ≤ agents }
    requires to { agents ≤ most_agents }
    ensures { IfOk result (λ cut. arc_value cut ≡ zero_cut agents) }
{
    let zero = Cut::zero(alloc, agents)?;
    match Arc::new(alloc, zero) {
        Ok(cut) => Ok(cut),
        Err(_) => Err(AllocError),
    }
}

impl Node {
    /// The cut that the node has learned for a period, up to which it has each batch. A period that it has not learned is
    /// refused, or else the first batch that is absent.
    pub fn cut_to_export(&self, period: u16) -> Result<(Period, &Arc<Cut>), Refusal>
        ensures found { MatchResult result (λ found. (found.0 ≡ period)
            × (cut_to_export period self.now ≡ Ok (arc_value found.1.now)))
            (λ refusal. cut_to_export period self.now ≡ Err refusal) }
        ensures whole { IfOk result (λ found.
            (slice_get self.now.node.kept.learned period ≡ Some (arc_value found.1.now))
            × (first_missing self.now.node.kept.holding (arc_value found.1.now) ≡ None)) }
    {
        // For the proof alone: its clause says that each learned cut has an entry for each agent.
        let _voters = self.voters();
        let learned = self.current_period();
        let (Some(of), Some(to)) = (Period::new(period), self.learned(period)) else {
            return Err(Refusal::NotClosed { learned });
        };
        match self.store().first_missing(to) {
            Some((agent, seq)) => Err(Refusal::Missing { agent, seq }),
            None => Ok((of, to)),
        }
    }

    /// The cut that the node has learned for the period before, shared; the zero cut where there is none. An error is an
    /// allocation failure.
    pub fn cut_before(&self, alloc: Global, period: u16) -> Result<Arc<Cut>, AllocError>
        ensures { IfOk result (λ cut. arc_value cut
            ≡ cut_before self.now.agents self.now.node.kept.learned period) }
    {
        let before = if period == 0 {
            None
        } else {
            self.learned(period - 1)
        };
        match before {
            Some(cut) => Arc::try_clone(cut),
            None => shared_zero(alloc, self.store().agents()),
        }
    }
}
