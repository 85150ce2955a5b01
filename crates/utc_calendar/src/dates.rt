//! Moments and days of UTC, in the years 0001 to 9999.

ghost use Rattle.std.specs.Prelude.{◌≡◌, ◌<◌, ◌≤◌, ◌≤ℤ◌, ◌*ℤ◌, ℤ, pos, true, false, take, slice_range, Some, IfSome, MatchOption};
ghost use Rattle.std.specs.Option.{option_zip};
ghost use Rattle.jiff_core.specs.Calendar.{days_from_civil};
ghost use Rattle.jiff_core.specs.Date.{epoch_day};
ghost use Rattle.metering_model.specs.Dates.{month_in, day_of_month, day_in, second_in, has_stamp_form, stamp_of, stamp_in, day_of};
ghost use Rattle.metering_model.specs.Limits.{last_year};
ghost use Rattle.utc_calendar.specs.Years.{IsMonthNumber, IsDayNumber, IsStampNumber};

use crate::digits;
use jiff::civil::{Date, date};
use std::marker::Model;

// UTC is counted without leap seconds.
const SECONDS_PER_DAY: i64 = 86_400;

/// A day of UTC, in the years 0001 to 9999.
#[derive(Clone, Copy, Debug, PartialEq, Eq, PartialOrd, Ord)]
pub struct Day {
    number: i32,
}

impl Model for Day {
    ghost Value = { ℤ };

    ghost view = { λ d. d.number };

    ghost invariant = { λ d. IsDayNumber d.number };

    ghost inverse = { λ n. record { number = n } };
}

impl Day {
    /// Reads `YYYY-MM-DD`; `None` for another form, and for a date that the calendar lacks.
    pub fn read(text: &[u8]) -> Option<Day>
        ensures { result ≡ day_in text.now }
    {
        if text.len() != 10 || text[7] != b'-' {
            return None;
        }
        let month = month_number(&text[..7])?;
        let day = digits::number(&text[8..10])?;
        Day::of_month(month, day)
    }

    // Reads a day as `read` does, at once where it is one that was read before.
    #[inline(always)]
    fn read_beside(text: &[u8], known: &[u8], day: Day) -> Option<Day>
        requires { day_in known.now ≡ Some day }
        ensures { result ≡ day_in text.now }
    {
        if text == known {
            Some(day)
        } else {
            Day::read(text)
        }
    }

    /// The first day of a month: the year from 1 to 9999, the month from 1 to 12.
    pub fn first_of_month(year: u16, month: u8) -> Day
        requires year_from { 1 ≤ year }
        requires year_to { year ≤ last_year }
        requires month_from { 1 ≤ month }
        requires month_to { month ≤ 12 }
        ensures { result ≡ days_from_civil (pos year) month 1 }
    {
        Day::from_date(date(year as i16, month as i8, 1))
    }

    // A day of a month that is counted from January of the year 0, if that month has the day.
    fn of_month(month: u32, day: u16) -> Option<Day>
        requires range { IsMonthNumber month }
        requires two_digits { day < 100 }
        ensures { result ≡ day_of_month day month }
    {
        match Date::new((month / 12) as i16, (month % 12 + 1) as i8, day as i8) {
            Ok(found) => Some(Day::from_date(found)),
            Err(_) => None,
        }
    }

    fn from_date(date: Date) -> Day
        requires { pos 1 ≤ℤ date.year }
        ensures { result ≡ epoch_day date }
    {
        Day {
            number: date.to_plain().to_unix_epoch_day(),
        }
    }

    /// The days from 1970-01-01 to this day, negative before it.
    pub fn number(self) -> i32
        ensures value { result ≡ self }
        ensures range { IsDayNumber result }
    {
        self.number
    }

    /// The first moment of the day.
    pub fn start(self) -> Stamp
        ensures { result ≡ self *ℤ pos 86_400 }
    {
        Stamp {
            seconds: i64::from(self.number) * SECONDS_PER_DAY,
        }
    }
}

/// A moment of UTC, to the second, in the years 0001 to 9999.
#[derive(Clone, Copy, Debug, PartialEq, Eq, PartialOrd, Ord)]
pub struct Stamp {
    seconds: i64,
}

impl Model for Stamp {
    ghost Value = { ℤ };

    ghost view = { λ s. s.seconds };

    ghost invariant = { λ s. IsStampNumber s.seconds };

    ghost inverse = { λ n. record { seconds = n } };
}

impl Stamp {
    /// Reads `YYYY-MM-DDTHH:mm:ssZ`; `None` for another form, for a date that the calendar lacks,
    /// and for a time past 23:59:59.
    pub fn read(text: &[u8]) -> Option<Stamp>
        ensures { result ≡ stamp_in text.now }
    {
        let (date, time) = date_and_time(text)?;
        Stamp::on_day(Day::read(date)?, time)
    }

    /// Reads two stamps, each as `read` does; `None` where either is none.
    pub fn read_both(first: &[u8], second: &[u8]) -> Option<(Stamp, Stamp)>
        ensures { result ≡ option_zip (stamp_in first.now) (stamp_in second.now) }
    {
        let (first_date, first_time) = date_and_time(first)?;
        let (second_date, second_time) = date_and_time(second)?;
        let first_day = Day::read(first_date)?;
        let second_day = Day::read_beside(second_date, first_date, first_day)?;
        let start = Stamp::on_day(first_day, first_time)?;
        let end = Stamp::on_day(second_day, second_time)?;
        Some((start, end))
    }

    // The moment of a day at a time, `HH:mm:ss`.
    #[inline(always)]
    fn on_day(day: Day, time: &[u8]) -> Option<Stamp>
        ensures { result ≡ stamp_of (Some day) (second_in time.now) }
    {
        let second = second_of_day(time)?;
        Some(Stamp {
            seconds: i64::from(day.number) * SECONDS_PER_DAY + i64::from(second),
        })
    }

    /// The day that the moment lies on.
    pub fn day(&self) -> Day
        ensures { result ≡ day_of self.now }
    {
        Day {
            number: self.seconds.div_euclid(SECONDS_PER_DAY) as i32,
        }
    }

    /// The seconds from 1970-01-01T00:00:00Z to this moment, negative before it.
    pub fn seconds(self) -> i64
        ensures value { result ≡ self }
        ensures range { IsStampNumber result }
    {
        self.seconds
    }
}

/// Reads `YYYY-MM` as the count of months since January of the year 0; `None` for another form, and
/// for a year or a month that is not there.
pub fn month_number(text: &[u8]) -> Option<u32>
    ensures value { result ≡ month_in text.now }
    ensures range { IfSome result IsMonthNumber }
{
    if text.len() != 7 || text[4] != b'-' {
        return None;
    }
    let year = digits::number(&text[..4])?;
    let month = digits::number(&text[5..7])?;
    if year == 0 || month == 0 || 12 < month {
        return None;
    }
    Some(12 * u32::from(year) + u32::from(month) - 1)
}

// The date and the time in a text that has the form of a stamp.
#[inline(always)]
fn date_and_time(text: &[u8]) -> Option<(&[u8], &[u8])>
    ensures { MatchOption result (has_stamp_form text.now ≡ false) (λ parts.
        (has_stamp_form text.now ≡ true) × (parts.0.now ≡ take 10 text.now)
        × (parts.1.now ≡ slice_range text.now 11 19)) }
{
    if text.len() != 20 || text[10] != b'T' || text[19] != b'Z' {
        return None;
    }
    Some((&text[..10], &text[11..19]))
}

// Reads `HH:mm:ss`.
#[inline(always)]
fn second_of_day(text: &[u8]) -> Option<u32>
    ensures value { result ≡ second_in text.now }
    ensures range { IfSome result (λ s. s < 86_400) }
{
    if text.len() != 8 || text[2] != b':' || text[5] != b':' {
        return None;
    }
    let hour = digits::number(&text[..2])?;
    let minute = digits::number(&text[3..5])?;
    let second = digits::number(&text[6..8])?;
    if 24 <= hour || 60 <= minute || 60 <= second {
        return None;
    }
    Some(3600 * u32::from(hour) + 60 * u32::from(minute) + u32::from(second))
}
