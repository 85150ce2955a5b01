//! Decimals of six places, read without taking memory: each text is looked at where it stands.

ghost use Rattle.std.specs.Prelude.{◌≡◌, ◌-◌, ◌<◌, ◌≤◌, ◌^◌, IsTrue, IfSome, IsSome, Some, MatchOption, position, length, take};
ghost use Rattle.std.specs.List.{list_all, before_first, after_first};
ghost use Rattle.metering_model.specs.NumberText.{is_digit, is_point, is_whole_part, is_decimal_part, ends_in, number_of, worth_of, units_of, magnitude_in, negated, not_negated, value_limit, value_within, value_in};
ghost use Rattle.fx_money.specs.Inner.Leading.{AreLeading};
ghost use Rattle.fx_money.specs.Inner.Limits.{below_limit};

use crate::{MILLION, PLACES, VALUE_LIMIT};
use metering_model::NumberFault;

/// No number with a whole part as great as this is within any limit.
const WHOLE_LIMIT: u64 = 1_000_000_000_000;

fn is_digit(byte: u8) -> bool
    ensures { result ≡ is_digit byte }
{
    byte.is_ascii_digit()
}

fn are_digits(text: &[u8]) -> bool
    ensures { result ≡ list_all is_digit text.now }
{
    text.iter().all(|byte| is_digit(*byte))
}

fn ends_in(text: &[u8], byte: u8) -> bool
    requires { 0 < byte }
    ensures { result ≡ ends_in byte text.now }
{
    matches!(text, [.., last] if *last == byte)
}

fn is_whole_part(text: &[u8]) -> bool
    ensures { result ≡ is_whole_part text.now }
{
    match text {
        [] => false,
        [only] => is_digit(*only),
        [first, others @ ..] => is_digit(*first) && *first != b'0' && are_digits(others),
    }
}

fn is_decimal_part(text: &[u8]) -> bool
    ensures { result ≡ is_decimal_part 6 text.now }
{
    are_digits(text) && text.len() <= PLACES && !ends_in(text, b'0')
}

fn first_point(body: &[u8]) -> Option<usize>
    ensures { result ≡ position is_point body.now }
{
    body.iter().position(|byte| *byte == b'.')
}

/// What stands before the first point and after it.
fn parts(body: &[u8]) -> (&[u8], &[u8])
    ensures whole { result.0.now ≡ before_first is_point body.now }
    ensures decimals { result.1.now ≡ after_first is_point body.now }
{
    match first_point(body) {
        Some(point) => (&body[..point], &body[point + 1..]),
        None => (body, &[]),
    }
}

/// The number that digits write, or None where it is as great as WHOLE_LIMIT, however long they are.
fn number(digits: &[u8]) -> Option<u64>
    requires { IsTrue (list_all is_digit digits.now) }
    ensures { MatchOption result (WHOLE_LIMIT ≤ number_of digits.now)
        (λ n. (n < WHOLE_LIMIT) × (n ≡ number_of digits.now)) }
{
    let mut number = 0;
    for digit in digits {
        number = 10 * number + u64::from(*digit - b'0');
        if number >= WHOLE_LIMIT {
            return None;
        }
    }
    Some(number)
}

/// The millionths that the digits after the point are worth.
fn worth(digits: &[u8]) -> u64
    requires { IsTrue (is_decimal_part 6 digits.now) }
    ensures value { result ≡ worth_of 6 digits.now }
    ensures small { result < 10 ^ 6 }
{
    let mut unit = MILLION;
    let mut worth = 0;
    for digit in digits {
        unit /= 10;
        worth += u64::from(*digit - b'0') * unit;
    }
    worth
}

/// The millionths of a number's parts, where they are below the limit.
fn units(whole: &[u8], decimals: &[u8], limit: u64) -> Result<u64, NumberFault>
    requires whole_part { IsTrue (is_whole_part whole.now) }
    requires decimal_part { IsTrue (is_decimal_part 6 decimals.now) }
    requires limited { limit ≤ value_limit }
    ensures { result ≡ below_limit limit (Some (units_of 6 whole.now decimals.now)) }
{
    let Some(number) = number(whole) else {
        return Err(NumberFault::Range);
    };
    let units = number * MILLION + worth(decimals);
    if units < limit {
        Ok(units)
    } else {
        Err(NumberFault::Range)
    }
}

/// The same as `magnitude`, part for part, and so of a text of any form.
#[inline(never)]
fn exact_magnitude(body: &[u8], limit: u64) -> Result<u64, NumberFault>
    requires { limit ≤ value_limit }
    ensures { result ≡ below_limit limit (magnitude_in 6 body.now) }
{
    let (whole, decimals) = parts(body);
    if is_whole_part(whole) && is_decimal_part(decimals) && !ends_in(body, b'.') {
        units(whole, decimals, limit)
    } else {
        Err(NumberFault::Shape)
    }
}

/// How many of the first bytes are digits, of which at most so many are read, and the number that they write.
#[inline(always)]
fn leading(text: &[u8], most: usize) -> (u64, usize)
    requires { most ≤ 12 }
    ensures leads { AreLeading text.now most result.1 }
    ensures number { result.0 ≡ number_of (take result.1 text.now) }
    ensures small { result.0 < 10 ^ result.1 }
{
    let mut number = 0;
    let mut count = 0;
    while count < most && count < text.len() && is_digit(text[count]) {
        number = 10 * number + u64::from(text[count] - b'0');
        count += 1;
    }
    (number, count)
}

/// The millionths that the last of so many decimals counts.
#[inline(always)]
fn last_unit(few: usize) -> u64
    requires { few ≤ 6 }
    ensures { result ≡ 10 ^ (6 - few) }
{
    match few {
        0 => 1_000_000,
        1 => 100_000,
        2 => 10_000,
        3 => 1000,
        4 => 100,
        5 => 10,
        _ => 1,
    }
}

/// The millionths of decimals of the form. None where there are none, and where they have not the form.
#[inline(always)]
fn usual_decimals(decimals: &[u8]) -> Option<u64>
    ensures form { IfSome result (λ n. IsTrue (is_decimal_part 6 decimals.now)) }
    ensures some { IfSome result (λ n. 0 < length decimals.now) }
    ensures value { IfSome result (λ n. n ≡ worth_of 6 decimals.now) }
    ensures small { IfSome result (λ n. n < 10 ^ 6) }
    ensures given { IsTrue (is_decimal_part 6 decimals.now) → 0 < length decimals.now
        → IsSome result }
{
    let (part, few) = leading(decimals, PLACES);
    if few == 0 || few < decimals.len() || decimals[few - 1] == b'0' {
        return None;
    }
    Some(part * last_unit(few))
}

/// The millionths of a number in the usual form: of each that has at most twelve bytes before its first point. None
/// says nothing of a text that has more.
#[inline(always)]
fn usual_magnitude(body: &[u8]) -> Option<u64>
    ensures value { IfSome result (λ n. magnitude_in 6 body.now ≡ Some n) }
    ensures given { length (before_first is_point body.now) ≤ 12
        → result ≡ magnitude_in 6 body.now }
{
    let (whole, many) = leading(body, 12);
    if many == 0 || (many > 1 && body[0] == b'0') {
        return None;
    }
    if many == body.len() {
        return Some(whole * MILLION);
    }
    if body[many] != b'.' {
        return None;
    }
    let part = usual_decimals(&body[many + 1..])?;
    Some(whole * MILLION + part)
}

/// The millionths of a decimal without sign, where they are below the limit.
pub(crate) fn magnitude(body: &[u8], limit: u64) -> Result<u64, NumberFault>
    requires { limit ≤ value_limit }
    ensures { result ≡ below_limit limit (magnitude_in 6 body.now) }
{
    match usual_magnitude(body) {
        Some(millionths) if millionths < limit => Ok(millionths),
        Some(_) => Err(NumberFault::Range),
        None => exact_magnitude(body, limit),
    }
}

/// The millionths of a value from the text after its minus. Zero has no minus.
fn negative(body: &[u8]) -> Result<i64, NumberFault>
    ensures { result ≡ value_within (negated (magnitude_in 6 body.now)) }
{
    match magnitude(body, VALUE_LIMIT) {
        Ok(0) => Err(NumberFault::Shape),
        Ok(millionths) => Ok(-(millionths as i64)),
        Err(fault) => Err(fault),
    }
}

/// The millionths of a value from a text without minus.
fn positive(body: &[u8]) -> Result<i64, NumberFault>
    ensures { result ≡ value_within (not_negated (magnitude_in 6 body.now)) }
{
    match magnitude(body, VALUE_LIMIT) {
        Ok(millionths) => Ok(millionths as i64),
        Err(fault) => Err(fault),
    }
}

/// The millionths of a value.
pub(crate) fn signed(text: &[u8]) -> Result<i64, NumberFault>
    ensures { result ≡ value_in text.now }
{
    match text {
        [first, body @ ..] if *first == b'-' => negative(body),
        _ => positive(text),
    }
}
