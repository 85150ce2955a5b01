//! What the bounds of periods are to one another, and what comparisons say. Each law is a function
//! with an empty body.

ghost use Rattle.std.specs.Prelude.{◌≡◌, ◌↔◌, ℕ, ◌+◌, ◌<◌, ◌<ℤ◌, ◌≤ℤ◌, IsTrue, Some};
ghost use Rattle.std.specs.Ordering.{nat_cmp};
ghost use Rattle.metering_model.specs.Cut.{Cut as ModelCut, IsAtLeast};
ghost use Rattle.metering_model.specs.Dates.{month_start, period_start, period_end, period_start_text, period_end_text, stamp_in, IsBaseMonth, IsPeriod};

use crate::periods::Period;

/// Periods follow one another without a gap: each has its moments to itself.
pub fn periods_follow_one_another()
    ensures has_moments { (base p : ℕ) → period_start base p <ℤ period_end base p }
    ensures meets_next { (base p : ℕ) → period_end base p ≡ period_start base (p + 1) }
    ensures apart { (base p q : ℕ) → p < q → period_end base p ≤ℤ period_start base q }
{}

/// A later month begins later, a later period of one base month begins and ends later, and a period begins later after
/// a later base month.
pub fn later_periods_begin_later()
    ensures months { (a b : ℕ) → a < b → month_start a <ℤ month_start b }
    ensures starts { (base p q : ℕ) → p < q → period_start base p <ℤ period_start base q }
    ensures ends { (base p q : ℕ) → p < q → period_end base p <ℤ period_end base q }
    ensures bases { (a b p : ℕ) → a < b → period_start a p <ℤ period_start b p }
{}

/// The texts of a period's bounds are read as these bounds.
pub fn period_texts_are_of_the_bounds()
    ensures start { (base p : ℕ) → IsBaseMonth base → IsPeriod p →
        stamp_in (period_start_text base p) ≡ Some (period_start base p) }
    ensures end { (base p : ℕ) → IsBaseMonth base → IsPeriod p →
        stamp_in (period_end_text base p) ≡ Some (period_end base p) }
{}

/// Periods are equal where their numbers are, and ordered as they come.
pub fn periods_are_compared_by_number(a: Period, b: Period)
    ensures equality { IsTrue (⟦<Period as PartialEq>⟧.eq a b) ↔ (a ≡ b) }
    ensures order { ⟦<Period as PartialOrd>⟧.partial_cmp a b ≡ Some (nat_cmp a b) }
{}

/// "At least" on cuts holds between a cut and itself and passes on, and two cuts that are at least each other are
/// equal.
pub fn cuts_are_ordered_by_all_agents()
    ensures itself { (cut : ModelCut) → IsAtLeast cut cut }
    ensures onward { (a b c : ModelCut) → IsAtLeast a b → IsAtLeast b c → IsAtLeast a c }
    ensures both { (a b : ModelCut) → IsAtLeast a b → IsAtLeast b a → a ≡ b }
{}
