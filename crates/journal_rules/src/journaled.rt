//! The rules of the journals, over what a store has with one batch more, or over one batch alone.

ghost use Rattle.std.specs.Prelude.{◌≡◌, ◌≤◌, true, false};
ghost use Rattle.std.specs.Option.{option_copied, option_map};
ghost use Rattle.metering_model.specs.Holding.{held, is_batch_at, placed, reading_at};
ghost use Rattle.metering_model.specs.JournalRules.{is_fit_target, broken_by, first_broken};
ghost use Rattle.batch_store.specs.Batches.{batch_of};
ghost use Rattle.batch_store.specs.Asked.{record_asked};
ghost use Rattle.batch_store.specs.Stores.{position_of};
ghost use Rattle.journal_rules.specs.FirstBad.{first_bad};
ghost use Rattle.journal_rules.specs.Inner.Journaled.{stored_in};

use crate::prices::is_fit_reading;
use crate::targets::{comes_earlier, has_fit_target};
use batch_store::{Asked, BatchView, OwnedBatch, RecordPlace, Store, Value};
use metering_model::BrokenRule;
use rating::Sheet;
use std::marker::Model;

/// The batch of an agent at a sequence, where there is a store and it has one.
fn kept_at(store: Option<&Store>, agent: u8, seq: u32) -> Option<&OwnedBatch>
    requires from { 1 ≤ agent }
    requires to { agent ≤ (stored_in (option_copied store)).agents }
    ensures { option_map batch_of (option_copied result)
        ≡ held (stored_in (option_copied store.entry)).batches agent seq }
{
    match store {
        Some(store) => store.get(agent, seq),
        None => None,
    }
}

/// What a store has with one batch more, or that batch alone. The store may have that very batch already.
#[derive(Drop)]
pub(crate) struct Journaled<'a> {
    pub(crate) store: Option<&'a Store>,
    pub(crate) batch: &'a BatchView<'a>,
}

impl<'a> Model for Journaled<'a> {
    ghost use Rattle.std.specs.Prelude.{◌≡◌, ◌≤◌, Some};
    ghost use Rattle.metering_model.specs.Holding.{held, put};
    ghost use Rattle.batch_store.specs.Batches.{batch_of};
    ghost use Rattle.std.specs.Option.{option_copied};
    ghost use Rattle.journal_rules.specs.Inner.Journaled.{WithBatch, stored_in};

    ghost Value = { WithBatch };

    ghost view = { λ j. record {
      agents = (stored_in (option_copied j.store)).agents;
      batches = put (stored_in (option_copied j.store)).batches (batch_of j.batch.now);
      batch = batch_of j.batch.now;
    } };

    ghost invariant = { λ j.
        ((batch_of j.batch.now).agent ≤ (stored_in (option_copied j.store)).agents)
        × (held (put (stored_in (option_copied j.store)).batches (batch_of j.batch.now))
        (batch_of j.batch.now).agent (batch_of j.batch.now).seq
        ≡ Some (batch_of j.batch.now)) };
}

impl<'a> Journaled<'a> {
    /// Whether the place is one of the batch itself.
    fn is_own(&self, place: RecordPlace) -> bool
        ensures { result ≡ is_batch_at place.agent place.seq self.now.batch }
    {
        self.batch.agent() == place.agent && self.batch.seq() == place.seq
    }

    /// Whether the batch itself has a reading at the place that takes the value.
    fn is_fit_here(&self, place: RecordPlace, value: Value) -> bool
        requires { is_batch_at place.agent place.seq self.now.batch ≡ true }
        ensures { result ≡ is_fit_target value (reading_at self.now.batches (position_of place)) }
    {
        has_fit_target(self.batch, place.index, value)
    }

    /// Whether there is a store that has a reading at the place that takes the value.
    fn is_fit_elsewhere(&self, place: RecordPlace, value: Value) -> bool
        requires from { 1 ≤ place.agent }
        requires to { place.agent ≤ self.now.agents }
        requires elsewhere { is_batch_at place.agent place.seq self.now.batch ≡ false }
        ensures { result ≡ is_fit_target value (reading_at self.now.batches (position_of place)) }
    {
        match kept_at(self.store, place.agent, place.seq) {
            Some(batch) => has_fit_target(&batch.view(), place.index, value),
            None => false,
        }
    }

    /// Whether there is a reading at the place that takes the value.
    fn is_fit_target(&self, place: RecordPlace, value: Value) -> bool
        requires from { 1 ≤ place.agent }
        requires to { place.agent ≤ self.now.agents }
        ensures { result ≡ is_fit_target value (reading_at self.now.batches (position_of place)) }
    {
        if self.is_own(place) {
            self.is_fit_here(place, value)
        } else {
            self.is_fit_elsewhere(place, value)
        }
    }

    /// The rule that a record at a place breaks, by what is asked of it.
    fn broken_by(&self, sheet: &Sheet, place: RecordPlace, what: &Asked<'_>) -> Option<BrokenRule>
        requires from { 1 ≤ place.agent }
        requires to { place.agent ≤ self.now.agents }
        ensures { result ≡ broken_by sheet.now self.now.batches (position_of place)
            (record_asked what.now) }
    {
        match what {
            Asked::Reading(reading) => {
                if is_fit_reading(sheet, reading) {
                    None
                } else {
                    Some(BrokenRule::Unpriced)
                }
            }
            Asked::Amend { seq, index, value } => {
                let target = RecordPlace {
                    agent: place.agent,
                    seq: *seq,
                    index: *index,
                };
                if comes_earlier(place, *seq, *index) && self.is_fit_target(target, *value) {
                    None
                } else {
                    Some(BrokenRule::BadTarget)
                }
            }
        }
    }

    /// The index of the first bad record of the batch, and the rule that it breaks.
    pub(crate) fn first_bad(&self, sheet: &Sheet) -> Option<(u16, BrokenRule)>
        ensures rule { option_map (λ r. r.1) result
            ≡ first_broken sheet.now self.now.batches (placed self.now.batch) }
        ensures index { option_map (λ r. r.0) result
            ≡ option_map (λ p. p.index)
            (first_bad sheet.now self.now.batches (placed self.now.batch)) }
    {
        let agent = self.batch.agent();
        let seq = self.batch.seq();
        // For the proof alone: its clause says that a batch has at most 1,000 records.
        let _count = self.batch.count();
        let mut index = 0;
        for asked in self.batch.asked() {
            let place = RecordPlace { agent, seq, index };
            if let Some(rule) = self.broken_by(sheet, place, &asked) {
                return Some((index, rule));
            }
            index += 1;
        }
        None
    }

    /// The rule that the first bad record of the batch breaks.
    pub(crate) fn first_broken(&self, sheet: &Sheet) -> Option<BrokenRule>
        ensures { result ≡ first_broken sheet.now self.now.batches (placed self.now.batch) }
    {
        match self.first_bad(sheet) {
            Some((_, rule)) => Some(rule),
            None => None,
        }
    }
}
