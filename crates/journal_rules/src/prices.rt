//! The rule on prices: usage and purchases have a price in force and, where they name a commitment, one that fits.

ghost use Rattle.std.specs.Prelude.{◌≡◌};
ghost use Rattle.metering_model.specs.JournalRules.{is_fit_commitment, is_fit_reading};
ghost use Rattle.metering_model.specs.Row.{commitment_of};
ghost use Rattle.batch_store.specs.Asked.{reading_asked};

use batch_store::AskedReading;
use byte_text::is_same;
use metering_model::Kind;
use rating::{Sheet, commitment_for, is_priced, price_for};

/// Whether the reading names no commitment, or one that fits it: usage its SKU, a purchase the SKU that buys it.
fn has_fit_commitment(sheet: &Sheet, reading: &AskedReading<'_>) -> bool
    ensures { result ≡ is_fit_commitment (reading_asked reading.now)
        (commitment_of sheet.now (reading_asked reading.now)) }
{
    let Some(commitment) = commitment_for(sheet, reading.kind, reading.commitment) else {
        return reading.commitment.is_empty();
    };
    match reading.kind {
        Kind::Usage => is_same(reading.key, commitment.sku().as_bytes()),
        Kind::Purchase => is_same(reading.key, commitment.buy().as_bytes()),
        Kind::Credit | Kind::Tax | Kind::Adjustment => is_same(reading.key, b""),
    }
}

/// Whether a reading of a priced kind has a price in force, and a fit commitment.
pub(crate) fn is_fit_reading(sheet: &Sheet, reading: &AskedReading<'_>) -> bool
    ensures { result ≡ is_fit_reading sheet.now (reading_asked reading.now) }
{
    !is_priced(reading.kind)
        || (price_for(sheet, reading.kind, reading.key, reading.start).is_some()
            && has_fit_commitment(sheet, reading))
}
