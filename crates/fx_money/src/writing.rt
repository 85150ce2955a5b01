//! The one spelling of a number, made on the stack and then appended at once.

ghost use Rattle.std.specs.Prelude.{◌≡◌, ◌+◌, ◌/◌, ◌%◌, ◌^◌, ◌<◌, ◌≤◌, [], ◌∷◌, ◌++◌, length, decimal, string_bytes, string_len, string_capacity, IfOk, OnOk, OnErr};
ghost use Rattle.metering_model.specs.NumberText.{point_text, decimals_of};
ghost use Rattle.fx_money.specs.Inner.Parts.{text_of_parts};
ghost use Rattle.fx_money.specs.Inner.Cuts.{IsCutTo};

use crate::{MILLION, PLACES};
use itoa::write_digits;
use std::alloc::{AllocError, Global};
use std::marker::Model;

/// A minus, 20 digits, a point and 12 decimals.
const LONGEST: usize = 34;

/// A text of ASCII that grows at its front, up to LONGEST bytes.
#[derive(Drop)]
struct Text {
    bytes: [u8; LONGEST],
    start: usize,
}

impl Model for Text {
    ghost use Rattle.std.specs.Prelude.{ℕ, List, ◌≤◌, drop, IsAscii};
    ghost use Rattle.fx_money.specs.declared.writing.TheConstants.{LONGEST};

    ghost Value = { List ℕ };

    ghost view = { λ t. drop t.start t.bytes };

    ghost invariant = { λ t. (t.start ≤ LONGEST) × IsAscii t.bytes };
}

impl Text {
    fn new() -> Text
        ensures { result ≡ [] }
    {
        Text {
            bytes: [0; LONGEST],
            start: LONGEST,
        }
    }

    fn as_str(&self) -> &str
        ensures { result.now ≡ self.now }
    {
        // That the bytes are ASCII is proved, so they are not looked through again.
        unsafe { std::str::from_utf8_unchecked(&self.bytes[self.start..]) }
    }

    fn prepend(&mut self, byte: u8)
        requires ascii { byte < 128 }
        requires room { length self.old < LONGEST }
        ensures { self.new ≡ byte ∷ self.old }
    {
        self.start -= 1;
        self.bytes[self.start] = byte;
    }

    fn prepend_whole(&mut self, number: u64)
        requires { length self.old + 20 ≤ LONGEST }
        ensures { self.new ≡ decimal number ++ self.old }
    {
        self.start = write_digits(number, &mut self.bytes, self.start);
    }

    /// Writes all the places of decimals, the last of which is not 0: they are the digits of the number with a 1 in
    /// front, which is left out.
    fn prepend_decimals(&mut self, number: u64, places: usize)
        requires few { places ≤ 12 }
        requires below { number < 10 ^ places }
        requires last { 0 < number % 10 }
        requires room { length self.old + places < LONGEST }
        ensures { self.new ≡ decimals_of places number ++ self.old }
    {
        let behind_one = power(places) + number;
        self.start = write_digits(behind_one, &mut self.bytes, self.start) + 1;
    }

    /// Writes a point and decimals, where there are any.
    fn prepend_fraction(&mut self, number: u64, places: usize)
        requires few { places ≤ 12 }
        requires below { number < 10 ^ places }
        requires room { length self.old + places < LONGEST }
        ensures { self.new ≡ point_text (decimals_of places number) ++ self.old }
    {
        if number == 0 {
            return;
        }
        let (number, places) = without_zeros(number, places);
        self.prepend_decimals(number, places);
        self.prepend(b'.');
    }
}

/// The powers of ten, up to that of as many places as a cost has.
const POWERS: [u64; 13] = [
    1,
    10,
    100,
    1_000,
    10_000,
    100_000,
    1_000_000,
    10_000_000,
    100_000_000,
    1_000_000_000,
    10_000_000_000,
    100_000_000_000,
    1_000_000_000_000,
];

/// Ten to the power of so many places.
fn power(places: usize) -> u64
    requires { places ≤ 12 }
    ensures { result ≡ 10 ^ places }
{
    POWERS[places]
}

/// The same decimals without six zeros at their end, where there are as many.
fn without_six_zeros(number: u64, places: usize) -> (u64, usize)
    requires positive { 0 < number }
    requires below { number < 10 ^ places }
    ensures cut { IsCutTo places number result.1 result.0 }
    ensures six { number % 1_000_000 ≡ 0 → result.1 + 6 ≡ places }
{
    if number % 1_000_000 == 0 {
        (number / 1_000_000, places - 6)
    } else {
        (number, places)
    }
}

/// The same decimals without the zeros at their end: a smaller number and fewer places.
fn without_zeros(number: u64, places: usize) -> (u64, usize)
    requires positive { 0 < number }
    requires below { number < 10 ^ places }
    ensures same { decimals_of result.1 result.0 ≡ decimals_of places number }
    ensures last { 0 < result.0 % 10 }
    ensures below { result.0 < 10 ^ result.1 }
    ensures fewer { result.1 ≤ places }
{
    let (mut left, mut kept) = without_six_zeros(number, places);
    while left % 10 == 0 {
        left /= 10;
        kept -= 1;
    }
    (left, kept)
}

/// Appends a number by its sign, its whole part and so many places of decimals. Where an allocation fails the text
/// stays as it was.
pub(crate) fn append(
    text: &mut String,
    minus: bool,
    whole: u64,
    decimals: u64,
    places: usize,
) -> Result<(), AllocError>
    requires few { places ≤ 12 }
    requires below { decimals < 10 ^ places }
    ensures ok { OnOk result (string_bytes text.new ≡ string_bytes text.old
        ++ text_of_parts minus whole decimals places) }
    ensures kept { OnErr result (string_bytes text.new ≡ string_bytes text.old) }
    ensures full { OnErr result (string_capacity text.old < string_len text.old
        + length (text_of_parts minus whole decimals places)) }
    ensures capacity { string_capacity text.old ≤ string_capacity text.new }
{
    let mut number = Text::new();
    number.prepend_fraction(decimals, places);
    number.prepend_whole(whole);
    if minus {
        number.prepend(b'-');
    }
    text.push_str(number.as_str())
}

/// Appends a number of millionths by its sign and its magnitude. Where an allocation fails the text stays as it was.
pub(crate) fn append_millionths(
    text: &mut String,
    minus: bool,
    magnitude: u64,
) -> Result<(), AllocError>
    ensures ok { OnOk result (string_bytes text.new ≡ string_bytes text.old
        ++ text_of_parts minus (magnitude / 10 ^ 6) (magnitude % 10 ^ 6) 6) }
    ensures kept { OnErr result (string_bytes text.new ≡ string_bytes text.old) }
    ensures full { OnErr result (string_capacity text.old < string_len text.old
        + length (text_of_parts minus (magnitude / 10 ^ 6) (magnitude % 10 ^ 6) 6)) }
    ensures capacity { string_capacity text.old ≤ string_capacity text.new }
{
    append(
        text,
        minus,
        magnitude / MILLION,
        magnitude % MILLION,
        PLACES,
    )
}

/// The text of a number of millionths by its sign and its magnitude. An error is an allocation failure.
pub(crate) fn millionths_text(
    alloc: Global,
    minus: bool,
    magnitude: u64,
) -> Result<String, AllocError>
    ensures { IfOk result (λ text. string_bytes text
        ≡ text_of_parts minus (magnitude / 10 ^ 6) (magnitude % 10 ^ 6) 6) }
{
    let mut text = String::new(alloc);
    append_millionths(&mut text, minus, magnitude)?;
    Ok(text)
}
