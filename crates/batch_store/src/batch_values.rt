//! What the readings of a batch are worth, all at once.

ghost use Rattle.std.specs.Prelude.{◌≡◌, ◌≤◌, ◌<◌, ℕ, true, length, slice_index_or, Some, None, IfOk};
ghost use Rattle.std.specs.Option.{is_some, option_or};
ghost use Rattle.metering_model.specs.Holding.{held};
ghost use Rattle.batch_view.specs.Batches.{batch_of};
ghost use Rattle.batch_store.specs.Stores.{IsStored, AreAmendedValues};
ghost use Rattle.batch_store.specs.Inner.Values.{last_given, at_index};

use crate::Store;
use batch_view::OwnedBatch;
use fx_money::Value;
use std::alloc::{AllocError, Global};

/// So many times nothing.
fn unset_values(alloc: Global, count: u16) -> Result<Vec<Option<Value>>, AllocError>
    ensures length { IfOk result (λ values. length values.items ≡ count) }
    ensures none { IfOk result (λ values. (k : ℕ) → slice_index_or values.items k None ≡ None) }
{
    let mut values = Vec::with_capacity(alloc, usize::from(count))?;
    for _ in 0..count {
        values.push(None)?;
    }
    Ok(values)
}

impl Store {
    /// What amendments up to `upto` give the readings of the agent's batch at `seq`, in millionths, by their index. A
    /// reading keeps its own value where none stands. The list is empty where nothing up to `upto` amends the batch and
    /// it amends nothing. Each later batch that amends it is looked at once.
    ///
    /// The batch has to be there, and `upto` at least `seq`. An error is an allocation failure.
    pub fn amended_values(
        &self,
        alloc: Global,
        agent: u8,
        seq: u32,
        upto: u32,
    ) -> Result<Vec<Option<Value>>, AllocError>
        requires from { 1 ≤ agent }
        requires to { agent ≤ self.now.agents }
        requires there { is_some (held self.now.batches agent seq) ≡ true }
        requires upto { seq ≤ upto }
        ensures { IfOk result
            (λ values. AreAmendedValues self.now.batches agent seq upto values.items) }
    {
        // For the proof alone: its clause says that the agents are 1 to 64, and their batches a holding.
        let _agents = self.agents();
        let own = self.get(agent, seq).unwrap();
        if own.amendments().is_empty() && self.last_amender(agent, seq, upto).is_none() {
            return Ok(Vec::new(alloc));
        }
        let mut values = unset_values(alloc, own.view().count())?;
        self.fill_amended(&mut values, own, agent, seq, upto);
        Ok(values)
    }

    /// Fills in what amendments up to `upto` give the readings of the batch, which is the agent's at `seq`.
    fn fill_amended(
        &self,
        values: &mut [Option<Value>],
        own: &OwnedBatch,
        agent: u8,
        seq: u32,
        upto: u32,
    )
        requires agent { (1 ≤ agent) × (agent ≤ self.now.agents) }
        requires upto { seq ≤ upto }
        requires stored { IsStored self.now }
        requires own { held self.now.batches agent seq ≡ Some (batch_of own.now) }
        requires length { length values.old ≡ length (batch_of own.now).records }
        requires none { (k : ℕ) → slice_index_or values.old k None ≡ None }
        ensures length { length values.new ≡ length values.old }
        ensures values { AreAmendedValues self.now.batches agent seq upto values.new }
    {
        self.fill_later(values, agent, seq, upto);
        own.fill_given(seq, values);
    }

    /// Fills in what the batches after `seq` and up to `upto` give the readings of the batch at `seq`. Only batches that
    /// are listed as amending it are looked at, from the last one on.
    fn fill_later(&self, values: &mut [Option<Value>], agent: u8, seq: u32, upto: u32)
        requires agent { (1 ≤ agent) × (agent ≤ self.now.agents) }
        requires upto { seq ≤ upto }
        requires stored { IsStored self.now }
        requires none { (k : ℕ) → slice_index_or values.old k None ≡ None }
        ensures length { length values.new ≡ length values.old }
        ensures later { (k : ℕ) → k < length values.old
            → last_given self.now.batches (at_index agent seq k) upto
            ≡ option_or (slice_index_or values.new k None)
            (last_given self.now.batches (at_index agent seq k) seq) }
    {
        let mut left = upto;
        while let Some(by) = self.last_amender(agent, seq, left) {
            if let Some(batch) = self.get(agent, by) {
                batch.fill_given(seq, values);
            }
            left = by - 1;
        }
    }
}
