//! Readings that start long after those of their agent above them.

ghost use Rattle.std.specs.Prelude.{◌≡◌, [], ◌∷◌, ◌++◌, ◌+◌, codes, List, ℤ, Some, None, OnOk, take, replicate};
ghost use Rattle.std.specs.List.{flat_map, slice_get};
ghost use Rattle.metering_model.specs.Batch.{Batch, Reading, Reads, Record as ModelRecord};
ghost use Rattle.batch_view.specs.Asked.{asked_in, record_asked};
ghost use Rattle.batch_view.specs.Batches.{batch_of};
ghost use Rattle.fault_lines.specs.Ahead.{AreLatest, ahead_in, ahead_of, is_ahead, later, latest, start_day, told_of_record};
ghost use Rattle.fault_lines.specs.Told.{told_at};

use crate::batches::{put_both, put_end, put_place};
use batch_view::{Asked, BatchView, Record};
use std::alloc::AllocError;
use std::marker::Model;

/// The most agents of a group.
const MOST_AGENTS: usize = 64;

/// So many days after the latest start a reading may start, without a warning.
const MOST_DAYS_AHEAD: i64 = 366;

/// Whether a day is more than 366 days after another, where there is one.
#[inline(always)]
fn is_ahead(above: Option<i32>, day: i32) -> bool
    ensures { result ≡ is_ahead above day }
{
    match above {
        Some(latest) => i64::from(latest) + MOST_DAYS_AHEAD < i64::from(day),
        None => false,
    }
}

/// The later of a day and another, where there is one.
#[inline(always)]
fn later(day: i32, above: Option<i32>) -> i32
    ensures { result ≡ later day above }
{
    match above {
        Some(latest) if day < latest => latest,
        _ => day,
    }
}

/// The day of the text of a moment: what stands before its time.
fn day_part(text: &[u8]) -> &[u8]
    ensures { result.now ≡ take 10 text.now }
{
    if text.len() < 10 { text } else { &text[..10] }
}

/// Appends that a reading on a line starts long after those above it.
fn put_start(told: &mut Vec<u8>, line: u128, start: &[u8]) -> Result<(), AllocError>
    ensures { OnOk result (told.new.items
        ≡ told.old.items ++ told_at line (codes "ahead " ++ take 10 start.now)) }
{
    let Ok(()) = put_place(told, line) else {
        return Err(AllocError);
    };
    let Ok(()) = put_both(told, b"ahead ", day_part(start)) else {
        return Err(AllocError);
    };
    put_end(told)
}

/// Appends that the reading at an index of a batch starts long after those above it. So many lines stand above the batch.
fn put_reading(
    told: &mut Vec<u8>,
    lines: usize,
    batch: &BatchView<'_>,
    index: u16,
) -> Result<(), AllocError>
    ensures { (r : Reading) → slice_get (batch_of batch.now).records index ≡ Some (Reads r)
        → OnOk result (told.new.items ≡ told.old.items
        ++ told_at (lines + 2 + index) (codes "ahead " ++ take 10 r.start_text)) }
{
    match batch.record_at(index) {
        Some(Record::Reading(reading)) => put_start(
            told,
            lines as u128 + 2 + u128::from(index),
            reading.start_text.text,
        ),
        _ => Ok(()),
    }
}

/// Appends it where the record at an index does, and takes the record to the latest day above it.
#[inline(always)]
fn put_record(
    told: &mut Vec<u8>,
    lines: usize,
    batch: &BatchView<'_>,
    index: u16,
    above: &mut Option<i32>,
    asked: &Asked<'_>,
) -> Result<(), AllocError>
    ensures told { (r : ModelRecord) (days : List ℤ)
        → slice_get (batch_of batch.now).records index ≡ Some r
        → record_asked asked.now ≡ asked_in r → above.old ≡ latest days
        → OnOk result (told.new.items
        ≡ told.old.items ++ told_of_record (lines + 2 + index) days r) }
    ensures latest { (r : ModelRecord) (days : List ℤ) → record_asked asked.now ≡ asked_in r
        → above.old ≡ latest days
        → above.new ≡ latest (start_day r ++ days) }
{
    match asked {
        Asked::Reading(reading) => {
            let day = reading.start.day().number();
            let before = *above;
            *above = Some(later(day, before));
            if is_ahead(before, day) {
                put_reading(told, lines, batch, index)
            } else {
                Ok(())
            }
        }
        Asked::Amend { .. } => Ok(()),
    }
}

/// Appends a line for each reading of a batch that starts long after those above it, and takes the batch to the latest day above it.
fn put_batch(
    told: &mut Vec<u8>,
    lines: usize,
    batch: &BatchView<'_>,
    above: &mut Option<i32>,
) -> Result<(), AllocError>
    ensures told { (days : List ℤ) → above.old ≡ latest days
        → OnOk result (told.new.items
        ≡ told.old.items ++ ahead_in (lines + 2) days (batch_of batch.now).records) }
    ensures latest { (days : List ℤ) → above.old ≡ latest days
        → OnOk result (above.new
        ≡ latest (flat_map start_day (batch_of batch.now).records ++ days)) }
{
    // For the proof alone: its clause says that a batch has at most 1,000 records.
    let _count = batch.count();
    let mut latest = *above;
    let mut index = 0;
    for asked in batch.asked() {
        let Ok(()) = put_record(told, lines, batch, index, &mut latest, &asked) else {
            return Err(AllocError);
        };
        index += 1;
    }
    *above = latest;
    Ok(())
}

/// Agent by agent the latest day on which a reading of the batches journaled so far starts, by its number. It takes no memory but
/// its own.
#[derive(Drop)]
pub struct LatestDays {
    days: [Option<i32>; MOST_AGENTS],
}

impl Model for LatestDays {
    ghost use Rattle.std.specs.Prelude.{List, Option, ℤ};

    ghost Value = { List (Option ℤ) };

    ghost view = { λ l. l.days };
}

/// No day, so many times.
#[inline(always)]
fn no_days<const N: usize>() -> [Option<i32>; N]
    ensures { result ≡ replicate N None }
{
    [None; N]
}

impl LatestDays {
    /// Those of no batches.
    pub fn none() -> LatestDays
        ensures { AreLatest result [] }
    {
        LatestDays {
            days: no_days::<MOST_AGENTS>(),
        }
    }

    /// Appends a line for each reading of a batch that starts more than 366 days after the latest of its agent above it, those of
    /// the batch and of the batches before it, and takes the batch to those: `line 26: ahead 2125-01-10`. So many lines of the
    /// input stand above the batch, and its head on the next.
    ///
    /// An error is an allocation failure, after which a part of a line may have been appended.
    pub fn put_ahead(
        &mut self,
        told: &mut Vec<u8>,
        lines: usize,
        batch: &BatchView<'_>,
    ) -> Result<(), AllocError>
        ensures said { (journaled : List Batch) → AreLatest self.old journaled
            → OnOk result (told.new.items
            ≡ told.old.items ++ ahead_of journaled lines (batch_of batch.now)) }
        ensures latest { (journaled : List Batch) → AreLatest self.old journaled
            → OnOk result (AreLatest self.new (batch_of batch.now ∷ journaled)) }
    {
        let place = usize::from(batch.agent() - 1);
        put_batch(told, lines, batch, &mut self.days[place])
    }
}
