//! Billing periods: the calendar months from a sheet's base month on.
ghost use Rattle.std.specs.Prelude.{◌≡◌, ◌↔◌, IsSome, IfSome};
ghost use Rattle.metering_model.specs.Dates.{period_start, period_end, period_start_text, period_end_text, IsBaseMonth, IsPeriod};

use std::marker::Model;
use utc_calendar::{Month, Stamp};

const MOST_PERIODS: u16 = 1_200;

/// A billing period, from 0 to 1,199; period 0 is the base month.
///
/// A base month that is passed in has to be one by [`Month::is_base`].
#[derive(Clone, Copy, Debug, PartialEq, Eq, PartialOrd, Ord)]
pub struct Period {
    number: u16,
}

impl Model for Period {
    ghost use Rattle.std.specs.Prelude.{ℕ};
    ghost use Rattle.metering_model.specs.Dates.{IsPeriod};

    ghost Value = { ℕ };

    ghost view = { λ period. period.number };

    ghost invariant = { λ period. IsPeriod period.number };

    ghost inverse = { λ number. record { number = number } };
}

impl Period {
    /// The period of that number; `None` from 1,200 on.
    pub fn new(number: u16) -> Option<Period>
        ensures valid { IsSome result ↔ IsPeriod number }
        ensures value { IfSome result (λ period. period ≡ number) }
    {
        if number < MOST_PERIODS {
            Some(Period { number })
        } else {
            None
        }
    }

    /// The months since the base month, from 0 to 1,199.
    pub fn number(self) -> u16
        ensures value { result ≡ self }
        ensures range { IsPeriod result }
    {
        self.number
    }

    /// The first moment of the period.
    pub fn start(self, base: Month) -> Stamp
        requires { IsBaseMonth base }
        ensures { result ≡ period_start base self }
    {
        base.after(self.number).start()
    }

    /// The first moment after the period, which is the start of the next.
    pub fn end(self, base: Month) -> Stamp
        requires { IsBaseMonth base }
        ensures { result ≡ period_end base self }
    {
        base.after(self.number + 1).start()
    }

    /// The text of the period's start, `YYYY-MM-DDTHH:mm:ssZ`.
    pub fn start_text(self, base: Month) -> [u8; 20]
        requires { IsBaseMonth base }
        ensures { result ≡ period_start_text base self }
    {
        base.after(self.number).start_text()
    }

    /// The text of the period's end, `YYYY-MM-DDTHH:mm:ssZ`.
    pub fn end_text(self, base: Month) -> [u8; 20]
        requires { IsBaseMonth base }
        ensures { result ≡ period_end_text base self }
    {
        base.after(self.number + 1).start_text()
    }
}
