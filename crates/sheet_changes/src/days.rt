//! The text of a day.

ghost use Rattle.std.specs.Prelude.{◌≡◌, ◌<◌};
ghost use Rattle.metering_model.specs.Dates.{IsDayText, two_digits};

use jiff_core::civil::Date;
use utc_calendar::Day;

/// The text of a day, `YYYY-MM-DD`.
pub(crate) fn day_text(day: Day) -> [u8; 10]
    ensures { IsDayText result day }
{
    let date = Date::from_unix_epoch_day(i64::from(day.number())).unwrap();
    let year = u32::from(date.year.unsigned_abs());
    let [thousands, hundreds] = two_digits(year / 100);
    let [tens, ones] = two_digits(year % 100);
    let [month_tens, month_ones] = two_digits(u32::from(date.month));
    let [day_tens, day_ones] = two_digits(u32::from(date.day));
    [
        thousands, hundreds, tens, ones, b'-', month_tens, month_ones, b'-', day_tens, day_ones,
    ]
}

fn two_digits(number: u32) -> [u8; 2]
    requires { number < 100 }
    ensures { result ≡ two_digits number }
{
    [b'0' + (number / 10) as u8, b'0' + (number % 10) as u8]
}
