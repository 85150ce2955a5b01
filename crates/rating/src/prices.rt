//! What a reading is priced by: its price in force, and the commitment that it names.

ghost use Rattle.std.specs.Prelude.{◌≡◌, if◌then◌else◌, None};
ghost use Rattle.std.specs.Option.{option_and_then, option_copied};
ghost use Rattle.metering_model.specs.Batch.{is_priced};
ghost use Rattle.metering_model.specs.Dates.{day_of};
ghost use Rattle.metering_model.specs.PriceInForce.{commitment_with, price_in_force};
ghost use Rattle.metering_model.specs.Row.{commitment_of, or_null, price_of, priced_kind};
ghost use Rattle.record_view.specs.Lent.{model_reading};

use metering_model::{Kind, PricedKind};
use price_sheet::{Commitment, PriceRow, Sheet};
use record_view::{Reading, Stamp};

/// The kind, where it is charged by a price; else None.
pub fn priced_kind(kind: Kind) -> Option<PricedKind>
    ensures { result ≡ priced_kind kind }
{
    match kind {
        Kind::Usage => Some(PricedKind::Usage),
        Kind::Purchase => Some(PricedKind::Purchase),
        Kind::Credit | Kind::Tax | Kind::Adjustment => None,
    }
}

/// Whether a price charges readings of this kind.
pub fn is_priced(kind: Kind) -> bool
    ensures { result ≡ is_priced kind }
{
    priced_kind(kind).is_some()
}

/// The price of that key in force on the day of that moment; None where there is none, or the kind is not charged by
/// one.
#[inline(always)]
pub fn price_for<'a>(sheet: &'a Sheet, kind: Kind, key: &[u8], start: Stamp) -> Option<&'a PriceRow>
    ensures { option_copied result
        ≡ (if is_priced kind then price_in_force sheet.now key.now (day_of start) else None) }
{
    if !is_priced(kind) {
        return None;
    }
    sheet.price(key, start.day())
}

/// The price in force on the day that the reading starts; None where there is none, or its kind is not charged by one.
pub fn price_of<'a>(sheet: &'a Sheet, reading: &Reading<'_>) -> Option<&'a PriceRow>
    ensures { option_copied result ≡ price_of sheet.now (model_reading reading.now) }
{
    price_for(sheet, reading.kind, reading.key.text, reading.start)
}

/// The commitment of that name; None where the sheet has none, the name is empty, or the kind is not charged by a
/// price.
#[inline(always)]
pub fn commitment_for<'a>(sheet: &'a Sheet, kind: Kind, commitment: &[u8]) -> Option<&'a Commitment>
    ensures { option_copied result
        ≡ (if is_priced kind then option_and_then (commitment_with sheet.now)
        (or_null commitment.now) else None) }
{
    if !is_priced(kind) || commitment.is_empty() {
        return None;
    }
    sheet.commitment(commitment)
}

/// The commitment that the reading names; None where the sheet has none, the name is empty, or its kind is not charged
/// by a price.
pub fn commitment_of<'a>(sheet: &'a Sheet, reading: &Reading<'_>) -> Option<&'a Commitment>
    ensures { option_copied result ≡ commitment_of sheet.now (model_reading reading.now) }
{
    commitment_for(sheet, reading.kind, reading.commitment.text)
}
