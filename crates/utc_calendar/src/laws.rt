//! What comparisons say. Each law is a function with an empty body.

ghost use Rattle.std.specs.Prelude.{◌≡◌, ◌↔◌, IsTrue, Some};
ghost use Rattle.std.specs.Ordering.{int_cmp, nat_cmp};

use crate::dates::{Day, Stamp};
use crate::months::Month;

/// Days are equal where they are the same day, and ordered as the calendar has them.
pub fn days_are_compared_by_number(a: Day, b: Day)
    ensures equality { IsTrue (⟦<Day as PartialEq>⟧.eq a b) ↔ (a ≡ b) }
    ensures order { ⟦<Day as PartialOrd>⟧.partial_cmp a b ≡ Some (int_cmp a b) }
{}

/// Moments are equal where they are the same second, and ordered as time passes.
pub fn stamps_are_compared_by_second(a: Stamp, b: Stamp)
    ensures equality { IsTrue (⟦<Stamp as PartialEq>⟧.eq a b) ↔ (a ≡ b) }
    ensures order { ⟦<Stamp as PartialOrd>⟧.partial_cmp a b ≡ Some (int_cmp a b) }
{}

/// Months are equal where they are the same month, and ordered as they come.
pub fn months_are_compared_by_number(a: Month, b: Month)
    ensures equality { IsTrue (⟦<Month as PartialEq>⟧.eq a b) ↔ (a ≡ b) }
    ensures order { ⟦<Month as PartialOrd>⟧.partial_cmp a b ≡ Some (nat_cmp a b) }
{}
