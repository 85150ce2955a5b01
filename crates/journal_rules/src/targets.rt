//! The rule on targets: an amendment names a reading that stands before it, so no amendment, and gives it a value that
//! it takes.

ghost use Rattle.std.specs.Prelude.{◌≡◌};
ghost use Rattle.std.specs.List.{slice_get};
ghost use Rattle.std.specs.Option.{option_and_then};
ghost use Rattle.metering_model.specs.Holding.{reading_of};
ghost use Rattle.metering_model.specs.JournalRules.{is_fit_target, comes_earlier};
ghost use Rattle.batch_store.specs.Batches.{batch_of};
ghost use Rattle.batch_store.specs.Stores.{position_of};

use batch_store::{BatchView, RecordPlace, Value};
use rating::is_priced;

/// Whether the batch has a reading at the index that takes the value: no priced one has a negative value.
pub(crate) fn has_fit_target(batch: &BatchView<'_>, index: u16, value: Value) -> bool
    ensures { result ≡ is_fit_target value
        (option_and_then reading_of (slice_get (batch_of batch.now).records index)) }
{
    match batch.kind_at(index) {
        Some(kind) => !is_priced(kind) || value.millionths() >= 0,
        None => false,
    }
}

/// Whether a sequence and an index come before the place.
pub(crate) fn comes_earlier(place: RecordPlace, seq: u32, index: u16) -> bool
    ensures { result ≡ comes_earlier (position_of place) seq index }
{
    seq < place.seq || (seq == place.seq && index < place.index)
}
