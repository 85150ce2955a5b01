//! What a reading is worth.

ghost use Rattle.std.specs.Prelude.{◌≡◌, ◌≤◌, ◌↔◌, true, IfSome, IsSome};
ghost use Rattle.std.specs.Option.{is_some, option_or};
ghost use Rattle.metering_model.specs.Holding.{reading_at};
ghost use Rattle.metering_model.specs.ValueAtSequence.{value_at};
ghost use Rattle.batch_view.specs.Batches.{batch_of};
ghost use Rattle.batch_view.specs.Kept.{kind_in};
ghost use Rattle.batch_store.specs.Stores.{IsStored, position_of};
ghost use Rattle.batch_store.specs.Inner.Values.{last_given};

use crate::{RecordPlace, Store};
use batch_view::OwnedBatch;
use fx_money::Value;

/// Whether the record at that index of the batch is a reading.
fn is_reading(batch: &OwnedBatch, index: u16) -> bool
    ensures { result ≡ is_some (kind_in (batch_of batch.now) index) }
{
    batch.view().kind_at(index).is_some()
}

impl Store {
    /// The value of the reading at a place as of a sequence of its agent, in millionths, and 0 before the reading's own
    /// sequence; None where the store has no reading there.
    pub fn value_at(&self, place: RecordPlace, upto: u32) -> Option<Value>
        requires from { 1 ≤ place.agent }
        requires to { place.agent ≤ self.now.agents }
        ensures there { IsSome result
            ↔ (is_some (reading_at self.now.batches (position_of place)) ≡ true) }
        ensures value { IfSome result
            (λ value. value ≡ value_at self.now.batches (position_of place) upto) }
    {
        // For the proof alone: its clause says that the agents are 1 to 64, and their batches a holding.
        let _agents = self.agents();
        let own = self.get(place.agent, place.seq)?;
        if !is_reading(own, place.index) {
            return None;
        }
        if upto < place.seq {
            return Value::new(0);
        }
        let later = self.last_amended(place, upto);
        if later.is_some() {
            return later;
        }
        own.value_given(place.seq, place.index)
    }

    /// The value that the last batch after the reading's own and up to a sequence gives it. Only batches that are
    /// listed as amending its own are looked at.
    fn last_amended(&self, place: RecordPlace, upto: u32) -> Option<Value>
        requires from { 1 ≤ place.agent }
        requires to { place.agent ≤ self.now.agents }
        requires seq { place.seq ≤ upto }
        requires stored { IsStored self.now }
        ensures { last_given self.now.batches (position_of place) upto
            ≡ option_or result (last_given self.now.batches (position_of place) place.seq) }
    {
        let mut left = upto;
        while let Some(seq) = self.last_amender(place.agent, place.seq, left) {
            if let Some(batch) = self.get(place.agent, seq) {
                let given = batch.value_given(place.seq, place.index);
                if given.is_some() {
                    return given;
                }
            }
            left = seq - 1;
        }
        None
    }
}
