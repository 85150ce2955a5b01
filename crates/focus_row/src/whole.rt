//! All rows between two cuts, or why there are none.

ghost use Rattle.std.specs.Prelude.{◌≡◌, ℕ, map, Some, None, Err, IfOk};
ghost use Rattle.metering_model.specs.declared.BrokenRule.{BrokenRule};
ghost use Rattle.metering_model.specs.Holding.{records_in_order, up_to};
ghost use Rattle.metering_model.specs.Step.{first_missing};
ghost use Rattle.metering_model.specs.JournalRules.{MeetsJournalRules, first_broken};
ghost use Rattle.metering_model.specs.Rows.{rows};
ghost use Rattle.charge_row.specs.FocusRows.{model_row};
ghost use Rattle.focus_row.specs.Cuts.{AreCuts};

use crate::between::rows_between;
use charge_row::{Cut, FocusRow, Period};
use journal_rules::{Store, first_broken_up_to};
use metering_model::BrokenRule;
use price_sheet::{Issuer, Sheet};
use std::alloc::{AllocError, Global};
use thiserror::Error;

/// Why no rows are returned.
#[derive(Clone, Copy, Debug, Drop, Error)]
pub enum RowFault {
    /// Q1: the store lacks this batch, and perhaps later ones up to the cut.
    #[error("missing agent {agent} seq {seq}")]
    Missing { agent: u8, seq: u32 },
    /// Q2, Q3: the first record up to the cut that breaks a rule breaks that on targets (Q2: G3) or on prices (Q3: G4).
    #[error("{0}")]
    Broken(BrokenRule),
    /// Q4: out of memory: an allocation for the rows failed.
    #[error("out of memory")]
    OutOfMemory,
}

/// The rows of a billing period between two cuts of what a store has, in journal order.
///
/// A reading above `from` has a row of its whole value, and one up to it a row of the difference of its values as of
/// the two cuts, where these differ. Missing is returned before Broken, and both before OutOfMemory.
pub fn rows_of<'a>(
    alloc: Global,
    store: &'a Store,
    sheet: &'a Sheet,
    issuer: &'a Issuer,
    period: Period,
    from: &'a Cut,
    to: &'a Cut,
) -> Result<Vec<FocusRow<'a>>, RowFault>
    requires cuts { AreCuts store.now.agents from.now to.now }
    ensures rows { IfOk result (λ all. map model_row all.items
        ≡ rows sheet.now issuer.now store.now.batches period from.now to.now) }
    ensures whole { IfOk result (λ _. (first_missing store.now.batches to.now ≡ None)
        × MeetsJournalRules sheet.now (up_to to.now store.now.batches)) }
    ensures missing { (agent seq : ℕ) → result ≡ Err (RowFault.Missing agent seq)
        → first_missing store.now.batches to.now ≡ Some (agent, seq) }
    ensures broken { (rule : BrokenRule) → result ≡ Err (RowFault.Broken rule)
        → (first_missing store.now.batches to.now ≡ None)
        × (first_broken sheet.now (up_to to.now store.now.batches)
        (records_in_order (up_to to.now store.now.batches)) ≡ Some rule) }
    ensures memory { result ≡ Err RowFault.OutOfMemory
        → (first_missing store.now.batches to.now ≡ None)
        × MeetsJournalRules sheet.now (up_to to.now store.now.batches) }
{
    // For the proof alone: its clause says that the agents are 1 to 64, and their batches a holding.
    let _agents = store.agents();
    if let Some((agent, seq)) = store.first_missing(to) {
        return Err(RowFault::Missing { agent, seq });
    }
    if let Some(rule) = first_broken_up_to(store, sheet, to) {
        return Err(RowFault::Broken(rule));
    }
    match rows_met(alloc, store, sheet, issuer, period, from, to) {
        Ok(all) => Ok(all),
        Err(_) => Err(RowFault::OutOfMemory),
    }
}

/// The rows, where no batch is absent and no rule is broken. An error is an allocation failure.
fn rows_met<'a>(
    alloc: Global,
    store: &'a Store,
    sheet: &'a Sheet,
    issuer: &'a Issuer,
    period: Period,
    from: &'a Cut,
    to: &'a Cut,
) -> Result<Vec<FocusRow<'a>>, AllocError>
    requires cuts { AreCuts store.now.agents from.now to.now }
    requires whole { first_missing store.now.batches to.now ≡ None }
    requires met { MeetsJournalRules sheet.now (up_to to.now store.now.batches) }
    ensures { IfOk result (λ all. map model_row all.items
        ≡ rows sheet.now issuer.now store.now.batches period from.now to.now) }
{
    let batches = rows_between(alloc, store, sheet, issuer, period, from, to)?;
    batches.all(alloc)
}
