//! Calendar months.
ghost use Rattle.std.specs.Prelude.{◌≡◌, ℕ, ◌+◌, ◌-◌, ◌*◌, ◌<◌, ◌≤◌, ◌↔◌, IsTrue};
ghost use Rattle.metering_model.specs.Dates.{month_in, month_start, month_start_text, two_digits, IsBaseMonth};
ghost use Rattle.metering_model.specs.Limits.{last_year};
ghost use Rattle.utc_calendar.specs.Years.{IsMonthNumber};

use crate::dates::{Day, Stamp, month_number};
use std::marker::Model;

const MONTHS_PER_YEAR: u32 = 12;

// 2000-01 and 2100-12
const FIRST_BASE_MONTH: u32 = MONTHS_PER_YEAR * 2000;

const LAST_BASE_MONTH: u32 = MONTHS_PER_YEAR * 2100 + 11;

/// A month of the years 0001 to 9999, in UTC.
#[derive(Clone, Copy, Debug, PartialEq, Eq, PartialOrd, Ord)]
pub struct Month {
    number: u32,
}

impl Model for Month {
    ghost Value = { ℕ };

    ghost view = { λ month. month.number };

    ghost invariant = { λ month. IsMonthNumber month.number };

    ghost inverse = { λ number. record { number = number } };
}

impl Month {
    /// A month of a year: the year from 1 to 9999, the month from 1 to 12.
    pub fn of(year: u16, month: u8) -> Month
        requires year_from { 1 ≤ year }
        requires year_to { year ≤ last_year }
        requires month_from { 1 ≤ month }
        requires month_to { month ≤ 12 }
        ensures { result ≡ 12 * year + month - 1 }
    {
        Month {
            number: MONTHS_PER_YEAR * u32::from(year) + u32::from(month) - 1,
        }
    }

    /// Reads `YYYY-MM`; `None` for another form, and for a year or a month that is not there.
    pub fn read(text: &[u8]) -> Option<Month>
        ensures { result ≡ month_in text.now }
    {
        let number = month_number(text)?;
        Some(Month { number })
    }

    /// Whether it may be a sheet's base month: it lies from 2000-01 to 2100-12.
    pub fn is_base(self) -> bool
        ensures { IsTrue result ↔ IsBaseMonth self }
    {
        FIRST_BASE_MONTH <= self.number && self.number <= LAST_BASE_MONTH
    }

    /// The months since January of the year 0.
    pub fn number(self) -> u32
        ensures value { result ≡ self }
        ensures range { IsMonthNumber result }
    {
        self.number
    }

    /// The month that many months later, which has to be one of the years up to 9999.
    pub fn after(self, months: u16) -> Month
        requires { self + months < 120_000 }
        ensures { result ≡ self + months }
    {
        Month {
            number: self.number + u32::from(months),
        }
    }

    /// The month's first moment.
    pub fn start(self) -> Stamp
        ensures { result ≡ month_start self }
    {
        let year = (self.number / MONTHS_PER_YEAR) as u16;
        let month = (self.number % MONTHS_PER_YEAR) as u8 + 1;
        Day::first_of_month(year, month).start()
    }

    /// The text of the month's first moment, `YYYY-MM-01T00:00:00Z`.
    pub fn start_text(self) -> [u8; 20]
        ensures { result ≡ month_start_text self }
    {
        let year = self.number / MONTHS_PER_YEAR;
        let [thousands, hundreds] = two_digits(year / 100);
        let [tens, ones] = two_digits(year % 100);
        let [month_tens, month_ones] = two_digits(self.number % MONTHS_PER_YEAR + 1);
        [
            thousands, hundreds, tens, ones, b'-', month_tens, month_ones, b'-', b'0', b'1', b'T',
            b'0', b'0', b':', b'0', b'0', b':', b'0', b'0', b'Z',
        ]
    }
}

fn two_digits(number: u32) -> [u8; 2]
    requires { number < 100 }
    ensures { result ≡ two_digits number }
{
    [b'0' + (number / 10) as u8, b'0' + (number % 10) as u8]
}
