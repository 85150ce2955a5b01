//! What an export is made of.

ghost use Rattle.std.specs.Prelude.{◌≡◌, ◌↔◌, length, None, IfOk, IsTrue};
ghost use Rattle.std.specs.Arc.{arc_value};
ghost use Rattle.metering_model.specs.Cut.{IsAtLeast};
ghost use Rattle.metering_model.specs.Holding.{up_to};
ghost use Rattle.metering_model.specs.JournalRules.{MeetsJournalRules};
ghost use Rattle.metering_model.specs.Step.{first_missing};
ghost use Rattle.group_events.specs.Snapshots.{IsExportable};

use node_kept::Store;
use period_cut::{Cut, Period};
use price_sheet::{Issuer, Sheet};
use std::alloc::{AllocError, Global};
use std::marker::Model;
use std::sync::Arc;

/// What the file of a period is made of: the cut before the period, the period's own, and the batches up to it.
///
/// None of these batches is missing and they meet the rules of the journals: so rendering the file has nothing to
/// refuse.
#[derive(Drop)]
pub struct Snapshot {
    period: Period,
    from: Arc<Cut>,
    to: Arc<Cut>,
    batches: Store,
    sheet: Arc<Sheet>,
    issuer: Arc<Issuer>,
}

impl Model for Snapshot {
    ghost use Rattle.std.specs.Prelude.{◌≡◌, length};
    ghost use Rattle.std.specs.Arc.{arc_value};
    ghost use Rattle.metering_model.specs.World as model;
    ghost use Rattle.group_events.specs.Snapshots.{IsExportable};

    ghost Value = { model.Snapshot };

    ghost view = { λ s. record {
      period = s.period;
      from = arc_value s.from;
      to = arc_value s.to;
      batches = s.batches.batches;
      sheet = arc_value s.sheet;
      issuer = arc_value s.issuer;
    } };

    ghost invariant = { λ s.
        (s.batches.agents ≡ length (arc_value s.to))
        × IsExportable (record {
          period = s.period;
          from = arc_value s.from;
          to = arc_value s.to;
          batches = s.batches.batches;
          sheet = arc_value s.sheet;
          issuer = arc_value s.issuer;
        }) };
}

/// Both cuts, shared.
fn share_cuts(from: &Arc<Cut>, to: &Arc<Cut>) -> Result<(Arc<Cut>, Arc<Cut>), AllocError>
    ensures { IfOk result
        (λ cuts. (arc_value cuts.0 ≡ arc_value from.now) × (arc_value cuts.1 ≡ arc_value to.now)) }
{
    let from = Arc::try_clone(from)?;
    let to = Arc::try_clone(to)?;
    Ok((from, to))
}

/// The sheet and the issuer, shared.
fn share_names(
    sheet: &Arc<Sheet>,
    issuer: &Arc<Issuer>,
) -> Result<(Arc<Sheet>, Arc<Issuer>), AllocError>
    ensures { IfOk result
        (λ names. (arc_value names.0 ≡ arc_value sheet.now)
        × (arc_value names.1 ≡ arc_value issuer.now)) }
{
    let sheet = Arc::try_clone(sheet)?;
    let issuer = Arc::try_clone(issuer)?;
    Ok((sheet, issuer))
}

impl Snapshot {
    /// Drops the snapshot. A crate above calls it in place of `drop`, for the prover's time alone (docs/DECISIONS.md).
    pub fn release(self) {}

    /// The snapshot of a period between two cuts: the batches up to the later one are shared. The store has to have
    /// each of them, and they to meet the rules of the journals. An error is an allocation failure.
    pub fn of(
        alloc: Global,
        period: Period,
        from: Arc<Cut>,
        to: Arc<Cut>,
        held: &Store,
        sheet: Arc<Sheet>,
        issuer: Arc<Issuer>,
    ) -> Result<Snapshot, AllocError>
        requires agents { length (arc_value to) ≡ held.now.agents }
        requires grows { IsAtLeast (arc_value to) (arc_value from) }
        requires whole { first_missing held.now.batches (arc_value to) ≡ None }
        requires met { MeetsJournalRules (arc_value sheet) (up_to (arc_value to) held.now.batches) }
        ensures { IfOk result (λ snapshot. snapshot ≡ record {
          period = period;
          from = arc_value from;
          to = arc_value to;
          batches = up_to (arc_value to) held.now.batches;
          sheet = arc_value sheet;
          issuer = arc_value issuer;
        }) }
    {
        let batches = held.share(alloc, &to)?;
        Ok(Snapshot {
            period,
            from,
            to,
            batches,
            sheet,
            issuer,
        })
    }

    /// The period whose file it is.
    pub fn period(&self) -> Period
        ensures { result ≡ self.now.period }
    {
        self.period
    }

    /// The cut before the period.
    pub fn from(&self) -> &Cut
        ensures { result.now ≡ self.now.from }
    {
        &self.from
    }

    /// The period's cut. The batches are those up to it.
    pub fn to(&self) -> &Cut
        ensures cut { result.now ≡ self.now.to }
        ensures exportable { IsExportable self.now }
    {
        &self.to
    }

    /// The batches up to the cut, in a store of as many agents as the cut has entries.
    pub fn batches(&self) -> &Store
        ensures { result.now ≡ record { agents = length self.now.to; batches = self.now.batches } }
    {
        &self.batches
    }

    /// The sheet by which the period is charged.
    pub fn sheet(&self) -> &Sheet
        ensures { result.now ≡ self.now.sheet }
    {
        &self.sheet
    }

    /// The issuer that the file names.
    pub fn issuer(&self) -> &Issuer
        ensures { result.now ≡ self.now.issuer }
    {
        &self.issuer
    }

    /// An equal snapshot. An error is an allocation failure.
    pub fn copy(&self, alloc: Global) -> Result<Snapshot, AllocError>
        ensures { IfOk result (λ copy. copy ≡ self.now) }
    {
        let (from, to) = share_cuts(&self.from, &self.to)?;
        let batches = self.batches.share(alloc, &self.to)?;
        let (sheet, issuer) = share_names(&self.sheet, &self.issuer)?;
        Ok(Snapshot {
            period: self.period,
            from,
            to,
            batches,
            sheet,
            issuer,
        })
    }

    /// Whether both have the same period, the same cuts, the same batches, and equal sheets and issuers.
    pub fn same(&self, other: &Snapshot) -> bool
        ensures { IsTrue result ↔ (self.now ≡ other.now) }
    {
        self.period == other.period
            && self.from.same(&other.from)
            && self.to.same(&other.to)
            && self.batches.same(&other.batches)
            && self.sheet.same(&other.sheet)
            && self.issuer.same(&other.issuer)
    }
}
