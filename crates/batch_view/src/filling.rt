//! Values of one batch's readings, all at once, from what the amendments of a batch give them.

ghost use Rattle.std.specs.Prelude.{◌≡◌, ◌<◌, ℕ, length, slice_index_or, All, None};
ghost use Rattle.std.specs.List.Sorted.{IsNonDecreasingBy};
ghost use Rattle.batch_view.specs.Inner.Amended.{rank, IsSmall};
ghost use Rattle.batch_view.specs.Inner.Filled.{has_effect, filled_by, IsFilled};

use crate::amendments::end_of_position;
use crate::owned::Amendment;
use record_view::Value;

/// Puts an amendment's value at the index that it names, if that is one of the values' and nothing stands there.
fn fill_value(values: &mut [Option<Value>], amendment: Amendment)
    ensures length { length values.new ≡ length values.old }
    ensures filled { (k : ℕ) → k < length values.old → slice_index_or values.new k None
        ≡ filled_by amendment k (slice_index_or values.old k None) }
{
    let index = usize::from(amendment.index);
    if index < values.len() && values[index].is_none() {
        values[index] = Some(amendment.value);
    }
}

/// Whether an amendment gives the reading that it names a value. In the batch that has the reading itself, one above it
/// changes nothing.
fn has_effect(is_own: bool, amendment: &Amendment) -> bool
    ensures { result ≡ has_effect is_own amendment.now }
{
    !is_own || amendment.index < amendment.own
}

/// Puts what sorted amendments give the readings of the batch at a sequence, by their index, where nothing stands
/// there. They are searched for the last that names that sequence, and looked at from that one back.
pub(crate) fn fill_named(sorted: &[Amendment], seq: u32, is_own: bool, values: &mut [Option<Value>])
    requires small { All IsSmall sorted.now }
    requires rising { IsNonDecreasingBy rank sorted.now }
    ensures length { length values.new ≡ length values.old }
    ensures filled { (k : ℕ) → k < length values.old
        → IsFilled sorted.now seq is_own k (slice_index_or values.old k None)
        (slice_index_or values.new k None) }
{
    let mut left = end_of_position(sorted, seq, u16::MAX);
    while left > 0 {
        let amendment = sorted[left - 1];
        if amendment.seq != seq {
            return;
        }
        if has_effect(is_own, &amendment) {
            fill_value(values, amendment);
        }
        left -= 1;
    }
}
