//! What a text is that is none of its kind.

ghost use Rattle.std.specs.Prelude.{◌≡◌};
ghost use Rattle.input_sections.specs.Sections.{begins_with};
ghost use Rattle.fault_lines.specs.Fields.{line_at};
ghost use Rattle.fault_lines.specs.TextKinds.{batch_words, ends_with_return, is_of_head, is_utf16, kind_words, opening_words, return_words};

use crate::fields::line_at;
use input_sections::behind_word;
use metering_model::{BatchCode, BatchFault};

/// Whether the last byte of a line is a carriage return.
fn ends_with_return(line: &[u8]) -> bool
    ensures { result ≡ ends_with_return line.now }
{
    match line.last() {
        Some(byte) => *byte == b'\r',
        None => false,
    }
}

/// What is told of the line of a text of that number, counted from 1: that it ends with a carriage return, where it does.
fn return_words(text: &[u8], number: u32) -> &'static [u8]
    ensures { result.now ≡ return_words (line_at text.now number) }
{
    match line_at(text, number) {
        Some(line) if ends_with_return(line) => b" carriage return",
        _ => b"",
    }
}

/// The byte order mark of UTF-8.
const BYTE_ORDER_MARK: &[u8] = b"\xEF\xBB\xBF";

/// Whether a text begins with a word.
pub(crate) fn begins_with(text: &[u8], word: &[u8]) -> bool
    ensures { result ≡ begins_with word.now text.now }
{
    behind_word(text, word).is_some()
}

/// Whether a text begins with a byte order mark of UTF-16.
fn is_utf16(text: &[u8]) -> bool
    ensures { result ≡ is_utf16 text.now }
{
    begins_with(text, b"\xFF\xFE") || begins_with(text, b"\xFE\xFF")
}

/// What a text is whose first line is none of its kind, or is not looked at, behind a space, or nothing.
pub(crate) fn kind_words(text: &[u8]) -> &'static [u8]
    ensures { result.now ≡ kind_words text.now }
{
    if text.is_empty() {
        b" empty"
    } else if begins_with(text, BYTE_ORDER_MARK) {
        b" byte order mark"
    } else if is_utf16(text) {
        b" UTF-16"
    } else {
        return_words(text, 1)
    }
}

/// What is told of a line of a text, counted from 1, that opens no section, behind a space, or nothing.
pub(crate) fn opening_words(text: &[u8], line: u32) -> &'static [u8]
    ensures { result.now ≡ opening_words text.now line }
{
    if line <= 1 {
        kind_words(text)
    } else {
        return_words(text, line)
    }
}

/// Whether the code says that a text has no head line, or is too long for one to be looked at: V1, V8.
fn is_of_head(code: BatchCode) -> bool
    ensures { result ≡ is_of_head code }
{
    match code {
        BatchCode::Head | BatchCode::TooLong => true,
        BatchCode::Count
        | BatchCode::Fields
        | BatchCode::Time
        | BatchCode::Number
        | BatchCode::Text
        | BatchCode::Tags => false,
    }
}

/// What is told of a text that is no batch, or of the line of its fault, behind a space, or nothing.
pub(crate) fn batch_words(text: &[u8], fault: BatchFault) -> &'static [u8]
    ensures { result.now ≡ batch_words text.now fault }
{
    if is_of_head(fault.code) {
        kind_words(text)
    } else {
        return_words(text, fault.line)
    }
}
