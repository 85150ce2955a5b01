//! The rows between two cuts, batch by batch.

ghost use Rattle.std.specs.Prelude.{◌≡◌, ◌≤◌, ◌-◌, ◌*◌, ◌<◌, [], length, map, slice_index_or, None, IfOk};
ghost use Rattle.metering_model.specs.Limits.{most_records};
ghost use Rattle.metering_model.specs.Cut.{IsAtLeast};
ghost use Rattle.metering_model.specs.Holding.{up_to};
ghost use Rattle.metering_model.specs.Rows.{rows};
ghost use Rattle.metering_model.specs.Step.{first_missing};
ghost use Rattle.metering_model.specs.JournalRules.{MeetsJournalRules};
ghost use Rattle.charge_row.specs.FocusRows.{model_row};
ghost use Rattle.focus_row.specs.Rows.{joined};

use crate::due_batches::BatchPlace;
use crate::walk::BatchRows;
use charge_row::{Billing, Cut, FocusRow, Period};
use journal_rules::{RecordPlace, Store};
use price_sheet::{Issuer, Sheet};
use std::alloc::{AllocError, Global};
use std::marker::Model;

/// What is charged between two cuts, and by what.
#[derive(Drop)]
pub(crate) struct BetweenCuts<'a> {
    pub(crate) alloc: Global,
    pub(crate) store: &'a Store,
    pub(crate) sheet: &'a Sheet,
    pub(crate) billing: Billing<'a>,
    pub(crate) period: Period,
    pub(crate) from: &'a Cut,
    pub(crate) to: &'a Cut,
    /// The places up to `from` that are amended above it and up to `to`.
    pub(crate) amended: Vec<RecordPlace>,
}

impl<'a> Model for BetweenCuts<'a> {
    ghost use Rattle.std.specs.Prelude.{map};
    ghost use Rattle.journal_rules.specs.Stores.{AreAmended, position_of};
    ghost use Rattle.charge_row.specs.PeriodTexts.{ArePeriodTexts};
    ghost use Rattle.focus_row.specs.Inner.Left.{Between, MayBeCharged};

    ghost Value = { Between };

    ghost view = { λ b. record {
      sheet = b.sheet.now;
      issuer = b.billing.issuer.now;
      agents = b.store.now.agents;
      batches = b.store.now.batches;
      period = b.period;
      from = b.from.now;
      to = b.to.now;
    } };

    ghost invariant = { λ b.
        MayBeCharged (record {
          sheet = b.sheet.now;
          issuer = b.billing.issuer.now;
          agents = b.store.now.agents;
          batches = b.store.now.batches;
          period = b.period;
          from = b.from.now;
          to = b.to.now;
        })
        × ArePeriodTexts b.sheet.now.base b.period b.billing.start_text b.billing.end_text
        × AreAmended b.store.now.batches b.from.now b.to.now (map position_of b.amended.items) };
}

/// The rows between two cuts, batch by batch in journal order. It holds where they are, and makes those of a batch each
/// time that they are asked for.
#[derive(Drop)]
pub struct RowsBetween<'a> {
    cuts: BetweenCuts<'a>,
    /// The batches that may have rows.
    places: Vec<BatchPlace>,
}

impl<'a> Model for RowsBetween<'a> {
    ghost use Rattle.std.specs.Prelude.{List, All, map};
    ghost use Rattle.metering_model.specs.Row.{Row};
    ghost use Rattle.focus_row.specs.Inner.Left.{IsWithin, rows_of_place};

    ghost Value = { List (List Row) };

    ghost view = { λ r. map (rows_of_place r.cuts) r.places.items };

    ghost invariant = { λ r. All (IsWithin r.cuts) r.places.items };
}

impl<'a> RowsBetween<'a> {
    /// How many batches there are. Some may have no row.
    pub fn batches(&self) -> usize
        ensures { result ≡ length self.now }
    {
        self.places.len()
    }

    /// An estimate of how many rows the batches from the one number to before the other have: at most 1,000 for each.
    pub fn estimated_rows(&self, from: usize, to: usize) -> usize
        requires order { from ≤ to }
        requires within { to ≤ length self.now }
        ensures { result ≤ most_records * (to - from) }
    {
        let mut count: usize = 0;
        for k in from..to {
            let place = self.places[k];
            count = count.saturating_add(self.cuts.estimated_rows(place.agent, place.seq));
        }
        count
    }

    /// The rows of the batch of that number, counted from 0, in order. An error is an allocation failure.
    pub fn rows_of_batch(&self, alloc: Global, k: usize) -> Result<Vec<FocusRow<'a>>, AllocError>
        requires { k < length self.now }
        ensures { IfOk result (λ rows. map model_row rows.items ≡ slice_index_or self.now k []) }
    {
        let place = self.places[k];
        self.cuts.rows_of_batch(alloc, place.agent, place.seq)
    }

    /// The walk over the rows of the batch of that number, a part of them at a time.
    pub fn walk(&self, k: usize) -> BatchRows<'_, 'a>
        requires { k < length self.now }
        ensures { result.rows ≡ slice_index_or self.now k [] }
    {
        let place = self.places[k];
        BatchRows::of(&self.cuts, place.agent, place.seq)
    }

    /// All rows, in order. An error is an allocation failure.
    pub fn all(&self, alloc: Global) -> Result<Vec<FocusRow<'a>>, AllocError>
        ensures { IfOk result (λ all. map model_row all.items ≡ joined self.now) }
    {
        let mut all = Vec::new(alloc);
        for k in 0..self.batches() {
            let Ok(mut rows) = self.rows_of_batch(alloc, k) else {
                return Err(AllocError);
            };
            if all.append(&mut rows).is_err() {
                return Err(AllocError);
            }
        }
        Ok(all)
    }
}

/// The rows of a billing period between two cuts of what a store has, batch by batch.
///
/// The store has to have each batch up to `to`, and these to meet the rules of the journals. An error is an allocation
/// failure.
pub fn rows_between<'a>(
    alloc: Global,
    store: &'a Store,
    sheet: &'a Sheet,
    issuer: &'a Issuer,
    period: Period,
    from: &'a Cut,
    to: &'a Cut,
) -> Result<RowsBetween<'a>, AllocError>
    requires agents { length to.now ≡ store.now.agents }
    requires grows { IsAtLeast to.now from.now }
    requires whole { first_missing store.now.batches to.now ≡ None }
    requires met { MeetsJournalRules sheet.now (up_to to.now store.now.batches) }
    ensures { IfOk result (λ batches. joined batches
        ≡ rows sheet.now issuer.now store.now.batches period from.now to.now) }
{
    let amended = store.amended(alloc, from, to)?;
    // For the proof alone: its clause says that the agents are 1 to 64, and their batches a holding.
    let _agents = store.agents();
    let cuts = BetweenCuts {
        alloc,
        store,
        sheet,
        billing: Billing::new(issuer, sheet.base_month(), period),
        period,
        from,
        to,
        amended,
    };
    let places = cuts.places(alloc)?;
    Ok(RowsBetween { cuts, places })
}
