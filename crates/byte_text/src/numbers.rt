//! Words and numbers, appended to a text. An error is an allocation failure: it comes only where the spare capacity is
//! too small for what is appended, and leaves the text's bytes as they were.

ghost use Rattle.std.specs.Prelude.{◌≡◌, ◌+◌, ◌<◌, ◌≤◌, ◌%◌, ◌++◌, decimal, length, vec_len, vec_capacity, OnOk, OnErr};
ghost use Rattle.metering_model.specs.Dates.{two_digits};
ghost use Rattle.metering_model.specs.Transcript.{if_any, with_number};

use itoa::Buffer;
use std::alloc::AllocError;

/// Appends a number in decimal. An error is an allocation failure, and leaves the text's bytes as they were.
pub fn put_number(text: &mut Vec<u8>, number: u128) -> Result<(), AllocError>
    ensures put { OnOk result (text.new.items ≡ text.old.items ++ decimal number) }
    ensures kept { OnErr result (text.new.items ≡ text.old.items) }
    ensures full { OnErr result
        (vec_capacity text.old < vec_len text.old + length (decimal number)) }
    ensures capacity { vec_capacity text.old ≤ vec_capacity text.new }
{
    // One digit is a byte, and needs no buffer.
    if number < 10 {
        return match text.push(b'0' + number as u8) {
            Ok(()) => Ok(()),
            Err(_) => Err(AllocError),
        };
    }
    text.extend_from_slice(Buffer::new().format(number).as_bytes())
}

/// Appends a word, and then a number in decimal. An error is an allocation failure, and leaves the text's bytes as they
/// were.
pub fn put_numbered(text: &mut Vec<u8>, word: &[u8], number: u128) -> Result<(), AllocError>
    ensures put { OnOk result (text.new.items ≡ text.old.items ++ with_number word.now number) }
    ensures kept { OnErr result (text.new.items ≡ text.old.items) }
    ensures full { OnErr result
        (vec_capacity text.old < vec_len text.old + length (with_number word.now number)) }
    ensures capacity { vec_capacity text.old ≤ vec_capacity text.new }
{
    let before = text.len();
    text.extend_from_slice(word)?;
    let result = put_number(text, number);
    if result.is_err() {
        text.truncate(before);
    }
    result
}

/// Appends a word, and then a number in decimal; nothing at None. An error is an allocation failure, and leaves the
/// text's bytes as they were.
pub fn put_if_any(text: &mut Vec<u8>, word: &[u8], number: Option<u32>) -> Result<(), AllocError>
    ensures put { OnOk result (text.new.items ≡ text.old.items ++ if_any word.now number) }
    ensures kept { OnErr result (text.new.items ≡ text.old.items) }
    ensures full { OnErr result
        (vec_capacity text.old < vec_len text.old + length (if_any word.now number)) }
    ensures capacity { vec_capacity text.old ≤ vec_capacity text.new }
{
    match number {
        Some(number) => put_numbered(text, word, u128::from(number)),
        None => Ok(()),
    }
}

/// The last digit of a number.
fn last_digit(number: u16) -> u8
    ensures { result ≡ 48 + number % 10 }
{
    b'0' + (number % 10) as u8
}

/// Appends the last two digits of a number, with a leading zero. An error is an allocation failure, and leaves the
/// text's bytes as they were.
pub fn put_two_digits(text: &mut Vec<u8>, number: u16) -> Result<(), AllocError>
    ensures put { OnOk result (text.new.items ≡ text.old.items ++ two_digits number) }
    ensures kept { OnErr result (text.new.items ≡ text.old.items) }
    ensures full { OnErr result (vec_capacity text.old < vec_len text.old + 2) }
    ensures capacity { vec_capacity text.old ≤ vec_capacity text.new }
{
    text.extend_from_slice(&[last_digit(number / 10), last_digit(number)])
}
