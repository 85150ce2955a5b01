//! The order of the calendar. Each law is a function with an empty body.

ghost use Rattle.std.specs.Prelude.{◌≡◌, ℕ, ◌<◌, ◌<ℤ◌, ◌≤ℤ◌, List, ℤ, pos};
ghost use Rattle.jiff_core.specs.Calendar.{days_from_civil, IsCivilDate};
ghost use Rattle.metering_model.specs.Dates.{IsStampText, day_of, month_start};
ghost use Rattle.metering_model.specs.Limits.{last_year};
ghost use Rattle.utc_calendar.specs.Years.{first_day, last_day, IsDayNumber};

/// A later month begins later.
pub fn later_months_begin_later()
    ensures { (a b : ℕ) → a < b → month_start a <ℤ month_start b }
{}

/// The dates of the years 0001 to 9999 have day numbers from the first to the last, and these two are those of the first date
/// and of the last.
pub fn dates_have_day_numbers()
    ensures first { days_from_civil (pos 1) 1 1 ≡ first_day }
    ensures last { days_from_civil (pos last_year) 12 31 ≡ last_day }
    ensures between { (year : ℤ) (month day : ℕ) → IsCivilDate year month day → pos 1 ≤ℤ year
        → IsDayNumber (days_from_civil year month day) }
{}

/// A stamp lies on the day that its text names.
pub fn stamps_lie_on_their_dates()
    ensures { (text : List ℕ) (n : ℤ) (stamp : IsStampText text n) → day_of n ≡ stamp.day }
{}
