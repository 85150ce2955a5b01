//! What a likeness says, both ways, what it says of files, and that it and what is listed agree. The laws are functions
//! that do nothing.

ghost use Rattle.std.specs.Prelude.{◌≡◌, ◌↔◌, List, ℕ, Some, ℤ, ◌≤ℤ◌};
ghost use Rattle.std.specs.List.{Contains};
ghost use Rattle.metering_model.specs.Dates.{period_end};
ghost use Rattle.metering_model.specs.Sheet.{Sheet, Issuer};
ghost use Rattle.metering_model.specs.SheetRules.{IsSheet};
ghost use Rattle.metering_model.specs.World.{Event, Snapshot, Exported, opening};
ghost use Rattle.metering_model.specs.Step.{play};
ghost use Rattle.metering_model.specs.Transcript.{file_of};
ghost use Rattle.sheet_laws.specs.Longer.{GoesOnFrom, day_start};
ghost use Rattle.sheet_changes.specs.FieldChanges.{ListsFields, ListsNoneBefore};
ghost use Rattle.sheet_changes.specs.Changes.{GoesOnBy, IsFirstUnlike, IsLikeness, Likeness, StaysBefore};

/// A likeness says from which days the new sheet goes on, and from which it does not. Where a commitment is another it
/// goes on from none, whatever its prices.
pub fn likeness()
    ensures days { (old new : Sheet) (l : Likeness) (day : ℤ)
        → IsLikeness old new l → GoesOnBy l day ↔ GoesOnFrom day old new }
    ensures commitment { (old new : Sheet) (id : List ℕ) (day : ℤ)
        → IsFirstUnlike old new id → ¬ GoesOnFrom day old new }
{}

/// Of sheets that meet the rules of a sheet, the new one goes on from a day exactly where it has the base of the old one
/// and no change is listed of what the old one has in force before that day, nor of its commitments. Of any two sheets
/// there is one listing.
pub fn listed()
    ensures days { (old new : Sheet) (day : ℤ) → IsSheet old → IsSheet new
        → GoesOnFrom day old new ↔ ((new.base ≡ old.base) × ListsNoneBefore day old new) }
    ensures only { (old new : Sheet) (one other : List ℕ)
        → ListsFields old new one → ListsFields old new other → other ≡ one }
{}

/// Where all stays that was asked for before a day, the file of an export, of a period that ends by then, is the same
/// bytes under the new sheet.
pub fn closed_months()
    ensures files { (voters observers agents : ℕ) (old new : Sheet) (issuer : Issuer)
        (events : List Event) (day : ℤ)
        → StaysBefore (Some day) old new
        → (s : Snapshot) → Contains (play (opening voters observers agents old issuer) events).0
        (Exported s)
        → period_end old.base s.period ≤ℤ day_start day
        → file_of (record s { sheet = new }) ≡ file_of s }
{
    sheet_laws::laws::months();
}
