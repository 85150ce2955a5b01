//! Which batches have rows between two cuts.

ghost use Rattle.std.specs.Prelude.{◌≡◌, ◌≤◌, ◌+◌, [], map, All, IfOk, IfSome, IfNone};
ghost use Rattle.std.specs.List.{flat_map};
ghost use Rattle.metering_model.specs.Limits.{most_records, most_agents, last_sequence};
ghost use Rattle.metering_model.specs.Cut.{last_of};
ghost use Rattle.metering_model.specs.Rows.{rows};
ghost use Rattle.charge_row.specs.FocusRows.{model_row};
ghost use Rattle.focus_row.specs.Inner.Left.{IsNextBatch, IsWithin, rows_left, rows_of_batch, rows_of_place};

use crate::between::BetweenCuts;
use crate::places::next_named;
use charge_row::FocusRow;
use std::alloc::{AllocError, Global};

/// The place of a batch in the journals.
#[derive(Clone, Copy)]
pub(crate) struct BatchPlace {
    pub(crate) agent: u8,
    pub(crate) seq: u32,
}

impl<'a> BetweenCuts<'a> {
    /// For how many rows of a batch with so many records room is made where all of them are made: above `from` each
    /// reading has one, up to it few have.
    fn room_for(&self, agent: u8, seq: u32, count: u16) -> usize
        requires from { 1 ≤ agent }
        requires to { agent ≤ self.now.agents }
        ensures { result ≤ count }
    {
        if seq > self.from.get(agent) {
            usize::from(count)
        } else {
            0
        }
    }

    /// As many rows as room is made for, where all of the batch of an agent at a sequence are made.
    pub(crate) fn estimated_rows(&self, agent: u8, seq: u32) -> usize
        requires within { IsWithin self.now (record { agent = agent; seq = seq }) }
        ensures { result ≤ most_records }
    {
        let batch = self.store.batch_at(agent, seq);
        self.room_for(agent, seq, batch.count())
    }

    /// The rows of the batch of an agent at a sequence.
    pub(crate) fn rows_of_batch(
        &self,
        alloc: Global,
        agent: u8,
        seq: u32,
    ) -> Result<Vec<FocusRow<'a>>, AllocError>
        requires within { IsWithin self.now (record { agent = agent; seq = seq }) }
        ensures { IfOk result (λ rows. map model_row rows.items
            ≡ rows_of_batch self.now agent seq) }
    {
        let batch = self.store.batch_at(agent, seq);
        let Ok(mut rows) = Vec::with_capacity(alloc, self.room_for(agent, seq, batch.count()))
        else {
            return Err(AllocError);
        };
        let values = self.new_values(agent, seq)?;
        self.put_rows(&mut rows, &batch, &values, agent, seq, 0, usize::MAX)?;
        Ok(rows)
    }

    /// The sequence of the agent's first batch from a sequence on that may have rows.
    fn next_of_agent(&self, agent: u8, seq: u32) -> Option<u32>
        requires from { 1 ≤ agent }
        requires to { agent ≤ self.now.agents }
        ensures within { IfSome result
            (λ next. (seq ≤ next) × (next ≤ last_of self.now.to agent) × (next ≤ last_sequence)) }
        ensures some { IfSome result
            (λ next. rows_left self.now agent next ≡ rows_left self.now agent seq) }
        ensures none { IfNone result
            (rows_left self.now (agent + 1) 1 ≡ rows_left self.now agent seq) }
    {
        let from = self.from.get(agent);
        if let Some(named) = next_named(&self.amended, agent, seq) {
            return Some(named);
        }
        let next = if seq <= from { from + 1 } else { seq };
        if next <= self.to.get(agent) {
            Some(next)
        } else {
            None
        }
    }

    /// The first batch from an agent's sequence on that may have rows: its agent and its sequence.
    fn next_stop(&self, agent: u8, seq: u32) -> Option<(u8, u32)>
        requires from { 1 ≤ agent }
        requires first { 1 ≤ seq }
        ensures limits { IfSome result
            (λ stop. (stop.0 ≤ most_agents) × (stop.1 ≤ last_sequence)) }
        ensures next { IfSome result
            (λ stop. IsNextBatch self.now agent seq (record { agent = stop.0; seq = stop.1 })) }
        ensures none { IfNone result (rows_left self.now agent seq ≡ []) }
    {
        let agents = self.store.agents();
        let mut start = seq;
        for own in agent..agents + 1 {
            if let Some(next) = self.next_of_agent(own, start) {
                return Some((own, next));
            }
            start = 1;
        }
        None
    }

    /// The batches that may have rows, in journal order.
    pub(crate) fn places(&self, alloc: Global) -> Result<Vec<BatchPlace>, AllocError>
        ensures all { IfOk result
            (λ places. flat_map (rows_of_place self.now) places.items ≡ rows_left self.now 1 1) }
        ensures within { IfOk result (λ places. All (IsWithin self.now) places.items) }
    {
        let mut places = Vec::new(alloc);
        let mut agent = 1;
        let mut seq = 1;
        while let Some((next_agent, next_seq)) = self.next_stop(agent, seq) {
            let place = BatchPlace {
                agent: next_agent,
                seq: next_seq,
            };
            places.push(place)?;
            agent = next_agent;
            seq = next_seq + 1;
        }
        Ok(places)
    }
}
