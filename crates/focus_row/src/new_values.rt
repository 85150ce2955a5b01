//! What the readings of a new batch are worth as of the later cut.

ghost use Rattle.std.specs.Prelude.{◌≡◌, ◌≤◌, true, unwrap_or, slice_index_or, None, IfOk};
ghost use Rattle.std.specs.Option.{is_some};
ghost use Rattle.metering_model.specs.Cut.{last_of};
ghost use Rattle.metering_model.specs.Holding.{held};
ghost use Rattle.batch_view.specs.Lent.{model_reading};
ghost use Rattle.focus_row.specs.Inner.NewValues.{AreNewValues};

use crate::between::BetweenCuts;
use batch_view::Reading;
use fx_money::Value;
use std::alloc::AllocError;

/// What a reading is worth, by the values that amendments give the readings of its batch.
pub(crate) fn value_in(values: &[Option<Value>], index: u16, reading: &Reading<'_>) -> Value
    ensures { result
        ≡ unwrap_or (slice_index_or values.now index None) (model_reading reading.now).value }
{
    match values.get(usize::from(index)) {
        Some(Some(value)) => *value,
        _ => reading.value,
    }
}

impl<'a> BetweenCuts<'a> {
    /// The values that amendments up to `to` give the readings of an agent's batch above `from`, by their index, looked
    /// up once for all of them. Of a batch up to `from` there are none: few of its readings are charged, and each is
    /// looked up by itself. An error is an allocation failure.
    pub(crate) fn new_values(&self, agent: u8, seq: u32) -> Result<Vec<Option<Value>>, AllocError>
        requires from { 1 ≤ agent }
        requires to { agent ≤ self.now.agents }
        requires last { seq ≤ last_of self.now.to agent }
        requires there { is_some (held self.now.batches agent seq) ≡ true }
        ensures { IfOk result (λ values. AreNewValues self.now agent seq values.items) }
    {
        if seq <= self.from.get(agent) {
            return Ok(Vec::new(self.alloc));
        }
        self.store
            .amended_values(self.alloc, agent, seq, self.to.get(agent))
    }
}
