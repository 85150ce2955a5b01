//! What the rows of all periods come to, passed on under these names. Each law is a function with an empty body.

ghost use Rattle.std.specs.Prelude.{◌≡◌, ℕ, List, Some};
ghost use Rattle.metering_model.specs.Batch.{Reading};
ghost use Rattle.metering_model.specs.Cut.{Cut, IsAtLeast, IsGrowing, last_of};
ghost use Rattle.metering_model.specs.Sheet.{Sheet, Issuer};
ghost use Rattle.metering_model.specs.Holding.{Holding, IsHolding, IsPartOf, LacksNothingUpTo, Position, reading_at};
ghost use Rattle.metering_model.specs.ValueAtSequence.{value_at};
ghost use Rattle.metering_model.specs.Rows.{rows};
ghost use Rattle.metering_model.specs.Totals.{amounts_of, rows_of_place};
ghost use Rattle.metering_model.specs.Totals as model;
ghost use Rattle.metering_model.specs.World.{last_cut};
ghost use Rattle.row_laws.specs.Charged.{charged_at_once};

/// Over growing cuts, the rows of a reading add up to what it would be charged once, at its value as of the last cut:
/// in both quantities and all four costs.
pub fn totals()
    ensures { (sheet : Sheet) (issuer : Issuer) (h : Holding) (agents : ℕ) (cuts : List Cut)
        (at : Position) (r : Reading) →
        IsHolding h → IsGrowing agents cuts → reading_at h at ≡ Some r →
        model.totals (rows_of_place sheet issuer h agents cuts at)
        ≡ amounts_of (charged_at_once sheet r
        (value_at h at (last_of (last_cut agents cuts) at.agent))) }
{
    row_laws::laws::totals();
}

/// A part of a holding has the rows of the whole, where it lacks nothing of it up to the later cut.
pub fn rows_stay()
    ensures { (sheet : Sheet) (issuer : Issuer) (part whole : Holding) (period : ℕ)
        (from to : Cut) →
        IsHolding part → IsHolding whole → IsPartOf part whole → LacksNothingUpTo to part whole
        → IsAtLeast to from →
        rows sheet issuer part period from to ≡ rows sheet issuer whole period from to }
{
    row_laws::laws::rows_stay();
}
