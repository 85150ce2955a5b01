//! Files, rendered batch by batch.

ghost use Rattle.std.specs.Prelude.{◌≡◌, All, IfOk};
ghost use Rattle.metering_model.specs.Holding.{Holding, IsHolding, IsPartOf, LacksNothingUpTo};
ghost use Rattle.metering_model.specs.Front.{AreDueBetween};
ghost use Rattle.metering_model.specs.Rows.{rows};
ghost use Rattle.metering_model.specs.File.{file};
ghost use Rattle.row_laws.specs.Due.{WereDueBefore, StartsBeforeItsPeriodEnds};
ghost use Rattle.batch_player.specs.Files.{MayBeCharged};

use focus_csv::{put_file, rows_between};
use journal_rules::Store;
use period_cut::{Cut, Period};
use price_sheet::{Issuer, Sheet};
use std::alloc::{AllocError, Global};

/// The bytes of a billing period's file, between two cuts of what a store has.
///
/// The store has to have each batch up to `to`, and these to meet the rules of the journals. An error is an allocation
/// failure.
pub fn file_between(
    alloc: Global,
    store: &Store,
    sheet: &Sheet,
    issuer: &Issuer,
    period: Period,
    from: &Cut,
    to: &Cut,
) -> Result<Vec<u8>, AllocError>
    requires charged { MayBeCharged sheet.now store.now.agents store.now.batches from.now to.now }
    ensures file { IfOk result
        (λ text. text.items ≡ file
        (rows sheet.now issuer.now store.now.batches period from.now to.now)) }

    // It is the file of the journals, of which the store has all up to the later cut.
    ensures journals { (journals : Holding) → IsHolding journals
        → IsPartOf store.now.batches journals
        → LacksNothingUpTo to.now store.now.batches journals
        → IfOk result (λ text. text.items
        ≡ file (rows sheet.now issuer.now journals period from.now to.now)) }

    // Where what is charged is due for the period, and what was charged before for an earlier one.
    ensures starts { AreDueBetween sheet.now.base period store.now.batches from.now to.now
        → WereDueBefore sheet.now.base period store.now.batches from.now
        → All StartsBeforeItsPeriodEnds
        (rows sheet.now issuer.now store.now.batches period from.now to.now) }
{
    row_laws::laws::rows_stay();
    row_laws::laws::charges_start_before_their_periods_end();
    // For the proof alone: their clauses say that the agents are 1 to 64, their batches a holding, and the month a base month.
    let _agents = store.agents();
    let _base = sheet.base_month();
    let mut text = Vec::new(alloc);
    let batches = rows_between(alloc, store, sheet, issuer, period, from, to)?;
    put_file(alloc, &batches, &mut text)?;
    Ok(text)
}
