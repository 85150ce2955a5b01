//! What a count of failed calls tells. The law is a function with an empty body.

ghost use Rattle.std.specs.Prelude.{◌≡◌, ℕ, true, false};
ghost use Rattle.counted_io.specs.Counts.{Rises, count_after};

/// A call whose count is said by whether its answer tells of a failed call of the device: where it does, the count rose, and
/// where it does not, it stayed.
pub fn a_fault_that_is_told_is_counted()
    ensures rises { (old new : ℕ) → new ≡ count_after true old → Rises old new }
    ensures stays { (old new : ℕ) → new ≡ count_after false old → new ≡ old }
{}
