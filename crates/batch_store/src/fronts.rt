//! How far a store can be closed for a period.

ghost use Rattle.std.specs.Prelude.{◌≡◌, ◌≤◌, length, IfOk};
ghost use Rattle.metering_model.specs.Dates.{IsBaseMonth};
ghost use Rattle.metering_model.specs.Front.{front};
ghost use Rattle.metering_model.specs.Limits.{last_sequence};
ghost use Rattle.batch_store.specs.Stores.{IsStored};
ghost use Rattle.batch_store.specs.Inner.Fronts.{is_due_by, IsLastDue};

use crate::Store;
use period_cut::{Cut, Month, Period, Stamp};
use std::alloc::{AllocError, Global};

/// No batch has a sequence above this one.
const LAST_SEQUENCE: u32 = 1_000_000;

impl Store {
    /// For each agent the greatest sequence such that all batches above the cut and up to it are there and due for the
    /// period, or the cut's own. An error is an allocation failure.
    pub fn due_front(
        &self,
        alloc: Global,
        cut: &Cut,
        period: Period,
        base: Month,
    ) -> Result<Cut, AllocError>
        requires agents { length cut.now ≡ self.now.agents }
        requires base { IsBaseMonth base }
        ensures { IfOk result (λ to. to ≡ front base self.now.batches cut.now period) }
    {
        let end = period.end(base);
        let mut to = cut.copy(alloc)?;
        for agent in 1..self.agents() + 1 {
            to.set(agent, self.last_due(agent, cut.get(agent), end));
        }
        Ok(to)
    }

    /// The greatest sequence such that all batches of an agent above `after` and up to it are there, and each of their
    /// readings starts before that moment.
    fn last_due(&self, agent: u8, after: u32, moment: Stamp) -> u32
        requires from { 1 ≤ agent }
        requires to { agent ≤ self.now.agents }
        requires after { after ≤ last_sequence }
        requires stored { IsStored self.now }
        ensures last { IsLastDue moment self.now.batches agent after result }
        ensures range { result ≤ last_sequence }
    {
        for seq in after..LAST_SEQUENCE {
            if !self.is_due_by(agent, seq + 1, moment) {
                return seq;
            }
        }
        LAST_SEQUENCE
    }

    /// Whether an agent's batch is there, and each reading in it starts before that moment.
    fn is_due_by(&self, agent: u8, seq: u32, moment: Stamp) -> bool
        requires from { 1 ≤ agent }
        requires to { agent ≤ self.now.agents }
        ensures { result ≡ is_due_by moment self.now.batches agent seq }
    {
        match self.get(agent, seq) {
            Some(batch) => batch.starts_before(moment),
            None => false,
        }
    }
}
