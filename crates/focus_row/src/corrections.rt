//! The rows of one reading: a new one, or a Correction of what an earlier period charged.

ghost use Rattle.std.specs.Prelude.{◌≡◌, ◌≤◌, ◌≤ℤ◌, true, pos, option_map, Some, IfOk, IfSome, OnOk, OnErr};
ghost use Rattle.std.specs.Option.{is_some, option_copied};
ghost use Rattle.metering_model.specs.Batch.{Reading as ModelReading, is_priced};
ghost use Rattle.metering_model.specs.Cut.{last_of};
ghost use Rattle.metering_model.specs.Holding.{reading_at};
ghost use Rattle.metering_model.specs.ValueAtSequence.{value_at};
ghost use Rattle.metering_model.specs.Row.{row};
ghost use Rattle.metering_model.specs.Sheet.{Sheet as ModelSheet};
ghost use Rattle.metering_model.specs.Rows.{row_of, row_of_reading, rows};
ghost use Rattle.batch_view.specs.Batches.{batch_of};
ghost use Rattle.batch_view.specs.Lent.{model_reading, record_of};
ghost use Rattle.journal_rules.specs.Stores.{position_of};
ghost use Rattle.charge_row.specs.FocusRows.{model_row};
ghost use Rattle.charge_row.specs.Regions.{IsNamed};
ghost use Rattle.focus_row.specs.Inner.Left.{IsUpTo, IsWalk, WalksOn, record_at};
ghost use Rattle.focus_row.specs.Inner.Beginnings.{BeginsWith, IsPutBehind};
ghost use Rattle.focus_row.specs.Inner.Near.{AreNamed};
ghost use Rattle.focus_row.specs.Inner.NewValues.{AreNewValues};

use crate::between::BetweenCuts;
use crate::new_values::value_in;
use crate::places::is_named;
use batch_view::{BatchView, Reading, Record};
use charge_row::{FocusRow, RegionColumns, row};
use fx_money::Value;
use journal_rules::RecordPlace;
use metering_model::ChargeClass;
use std::alloc::AllocError;

/// The region of the last row, which is near the next one.
fn last_region<'a>(rows: &[FocusRow<'a>]) -> RegionColumns<'a>
    ensures named { (sheet : ModelSheet) → AreNamed sheet rows.now
        → IsNamed sheet (option_copied result.id) (option_copied result.name) }
{
    match rows.last() {
        Some(row) => RegionColumns {
            id: row.region_id,
            name: row.region_name,
        },
        None => RegionColumns::none(),
    }
}

impl<'a> BetweenCuts<'a> {
    /// The value of a reading as of a sequence of its agent.
    fn value(&self, place: RecordPlace, upto: u32) -> Value
        requires place { IsUpTo self.now.agents self.now.to (position_of place) }
        requires there { is_some (reading_at self.now.batches (position_of place)) ≡ true }
        requires upto { upto ≤ last_of self.now.to place.agent }
        ensures value { result ≡ value_at self.now.batches (position_of place) upto }
        ensures not_negative { (r : ModelReading)
            → reading_at self.now.batches (position_of place) ≡ Some r
            → is_priced r.kind ≡ true → pos 0 ≤ℤ result }
    {
        self.store.value_at(place, upto).unwrap()
    }

    /// The row of a reading up to `from` from its value there to the one at `to`, where these differ.
    fn correction(
        &self,
        near: RegionColumns<'a>,
        place: RecordPlace,
        reading: &Reading<'a>,
    ) -> Option<FocusRow<'a>>
        requires near { IsNamed self.now.sheet (option_copied near.id) (option_copied near.name) }
        requires place { IsUpTo self.now.agents self.now.from (position_of place) }
        requires there { reading_at self.now.batches (position_of place)
            ≡ Some (model_reading reading.now) }
        ensures row { option_map model_row result
            ≡ row_of_reading self.now.sheet self.now.issuer self.now.batches self.now.period
            self.now.from self.now.to (position_of place) (model_reading reading.now) }
        ensures named { IfSome result
            (λ row. IsNamed self.now.sheet (option_copied row.region_id)
            (option_copied row.region_name)) }
    {
        if !is_named(&self.amended, place) {
            return None;
        }
        let was = self.value(place, self.from.get(place.agent));
        let now = self.value(place, self.to.get(place.agent));
        if was == now {
            return None;
        }
        Some(row(
            &self.billing,
            self.sheet,
            near,
            reading,
            ChargeClass::Correction,
            was,
            now,
        ))
    }

    /// Puts the correction of a reading up to `from` after the other rows, where it has one. It stands apart, so that
    /// the way of readings above `from` clears no room for it. At an allocation failure the rows are as before.
    #[inline(never)]
    fn put_correction(
        &self,
        rows: &mut Vec<FocusRow<'a>>,
        near: RegionColumns<'a>,
        place: RecordPlace,
        reading: &Reading<'a>,
    ) -> Result<(), AllocError>
        requires named { AreNamed self.now.sheet rows.old.items }
        requires near { IsNamed self.now.sheet (option_copied near.id) (option_copied near.name) }
        requires place { IsUpTo self.now.agents self.now.from (position_of place) }
        requires there { reading_at self.now.batches (position_of place)
            ≡ Some (model_reading reading.now) }
        ensures put { OnOk result (IsPutBehind self.now.sheet
            (row_of_reading self.now.sheet self.now.issuer self.now.batches self.now.period
            self.now.from self.now.to (position_of place) (model_reading reading.now))
            rows.old.items rows.new.items) }
        ensures kept { OnErr result (rows.new.items ≡ rows.old.items) }
    {
        let Some(row) = self.correction(near, place, reading) else {
            return Ok(());
        };
        if rows.push(row).is_err() {
            return Err(AllocError);
        }
        Ok(())
    }

    /// Puts the row of a record after the others, where it has one. The region of the row before is near. At an
    /// allocation failure the rows are as before.
    fn put_row(
        &self,
        rows: &mut Vec<FocusRow<'a>>,
        place: RecordPlace,
        what: &Record<'a>,
        values: &[Option<Value>],
    ) -> Result<(), AllocError>
        requires near { AreNamed self.now.sheet rows.old.items }
        requires place { IsUpTo self.now.agents self.now.to (position_of place) }
        requires there { record_at self.now.batches (position_of place)
            ≡ Some (record_of what.now) }
        requires values { AreNewValues self.now place.agent place.seq values.now }
        ensures put { OnOk result (IsPutBehind self.now.sheet
            (row_of self.now.sheet self.now.issuer self.now.batches self.now.period
            self.now.from self.now.to (position_of place) (record_of what.now))
            rows.old.items rows.new.items) }
        ensures kept { OnErr result (rows.new.items ≡ rows.old.items) }
    {
        let Record::Reading(reading) = what else {
            return Ok(());
        };
        let near = last_region(rows);
        if place.seq <= self.from.get(place.agent) {
            return self.put_correction(rows, near, place, reading);
        }
        // A reading above `from` is charged whole. The call stands here, and in no function of its own, so that the row,
        // some 750 bytes, is not copied once more.
        let nothing = Value::new(0).unwrap();
        let now = value_in(values, place.index, reading);
        if rows
            .push(row(
                &self.billing,
                self.sheet,
                near,
                reading,
                ChargeClass::New,
                nothing,
                now,
            ))
            .is_err()
        {
            return Err(AllocError);
        }
        Ok(())
    }

    /// Puts the rows of a batch's records from an index on after the other rows, until there are as many as the limit,
    /// and returns the index of the first record whose row was not asked for. At an allocation failure some of them may
    /// stand there.
    pub(crate) fn put_rows(
        &self,
        rows: &mut Vec<FocusRow<'a>>,
        batch: &BatchView<'a>,
        values: &[Option<Value>],
        agent: u8,
        seq: u32,
        from: u16,
        limit: usize,
    ) -> Result<u16, AllocError>
        requires near { AreNamed self.now.sheet rows.old.items }
        requires walk { IsWalk self.now agent seq from (batch_of batch.now) }
        requires values { AreNewValues self.now agent seq values.now }
        ensures on { IfOk result
            (λ to. WalksOn self.now agent seq (batch_of batch.now) from to limit
            rows.old.items rows.new.items) }
        ensures begins { BeginsWith rows.new.items rows.old.items }
    {
        let count = batch.count();
        for index in from..count {
            if rows.len() >= limit {
                return Ok(index);
            }
            let Some(record) = batch.record_at(index) else {
                unreachable!()
            };
            let place = RecordPlace { agent, seq, index };
            self.put_row(rows, place, &record, values)?;
        }
        Ok(count)
    }
}
