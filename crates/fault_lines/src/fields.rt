//! Which field of a record's line is told of a fault.

ghost use Rattle.std.specs.Prelude.{true, ◌≡◌, ◌<◌, ◌∷◌, Some, None, Err, length, MatchOption};
ghost use Rattle.metering_model.specs.Batch.{is_text};
ghost use Rattle.metering_model.specs.BatchReading.{batch_in, fields_in, record_in};
ghost use Rattle.metering_model.specs.declared.Version.{Version};
ghost use Rattle.fault_lines.specs.Fields.{fault_field, field_of, is_of_field, line_at};
ghost use Rattle.fault_lines.specs.Told.{field_words};
ghost use Rattle.fault_lines.specs.Inner.LineFields.{AreFieldsOf, is_priced_letter, number_field, text_field, time_field};

use byte_text::{first_line, is_same, lines_length, read_whole, split_at_bar};
use metering_model::{BatchCode, BatchFault};
use utc_calendar::Stamp;

/// A field of a record's line, after its letter.
#[derive(Clone, Copy)]
pub enum RecordField {
    Start,
    End,
    Account,
    Resource,
    Key,
    Value,
    Commitment,
    Tags,
    Region,
    Sequence,
    Index,
}

/// The name of a field behind a space, where there is one.
pub(crate) fn field_words(field: Option<RecordField>) -> &'static [u8]
    ensures { result.now ≡ field_words field }
{
    match field {
        Some(RecordField::Start) => b" start",
        Some(RecordField::End) => b" end",
        Some(RecordField::Account) => b" account",
        Some(RecordField::Resource) => b" resource",
        Some(RecordField::Key) => b" key",
        Some(RecordField::Value) => b" value",
        Some(RecordField::Commitment) => b" commitment",
        Some(RecordField::Tags) => b" tags",
        Some(RecordField::Region) => b" region",
        Some(RecordField::Sequence) => b" sequence",
        Some(RecordField::Index) => b" index",
        None => b"",
    }
}

/// Those fields of a reading's line that may have a fault of a moment or of a text, but the last ones, and its letter.
#[derive(Clone, Copy)]
struct ReadingFields<'a> {
    letter: &'a [u8],
    start: &'a [u8],
    account: &'a [u8],
    resource: &'a [u8],
    key: &'a [u8],
    commitment: &'a [u8],
}

/// The first two fields of a line, and what stands behind them.
#[derive(Clone, Copy)]
struct TwoFields<'a> {
    first: &'a [u8],
    second: &'a [u8],
    rest: &'a [u8],
}

/// The first two fields of a line; None where nothing stands behind them.
fn first_two<'a>(line: &'a [u8]) -> Option<TwoFields<'a>>
    ensures { MatchOption result (length (fields_in line.now) < 3)
        (λ p. fields_in line.now ≡ p.first.now ∷ p.second.now ∷ fields_in p.rest.now) }
{
    let Some((first, rest)) = split_at_bar(line) else {
        return None;
    };
    match split_at_bar(rest) {
        Some((second, rest)) => Some(TwoFields {
            first,
            second,
            rest,
        }),
        None => None,
    }
}

/// These fields of a line; None where it has fewer than nine.
fn reading_fields<'a>(line: &'a [u8]) -> Option<ReadingFields<'a>>
    ensures { MatchOption result (length (fields_in line.now) < 9) (AreFieldsOf line.now) }
{
    let Some(front) = first_two(line) else {
        return None;
    };
    let Some(owner) = first_two(front.rest) else {
        return None;
    };
    let Some(charged) = first_two(owner.rest) else {
        return None;
    };
    match first_two(charged.rest) {
        Some(valued) => Some(ReadingFields {
            letter: front.first,
            start: front.second,
            account: owner.second,
            resource: charged.first,
            key: charged.second,
            commitment: valued.second,
        }),
        None => None,
    }
}

/// Whether each byte is printable ASCII.
fn is_text(text: &[u8]) -> bool
    ensures { result ≡ is_text text.now }
{
    for byte in text {
        if *byte < 0x20 || *byte > 0x7E {
            return false;
        }
    }
    true
}

/// Whether a price charges readings of this letter: usage and purchases.
fn is_priced_letter(letter: &[u8]) -> bool
    ensures { result ≡ is_priced_letter letter.now }
{
    is_same(letter, b"U") || is_same(letter, b"P")
}

/// Which moment is at fault, where one is.
fn time_field(fields: &ReadingFields<'_>) -> RecordField
    ensures { result ≡ time_field fields.now }
{
    if Stamp::read(fields.start).is_some() {
        RecordField::End
    } else {
        RecordField::Start
    }
}

/// Which text is at fault, where one is: the first.
fn text_field(fields: &ReadingFields<'_>) -> RecordField
    ensures { result ≡ text_field fields.now }
{
    if !is_text(fields.account) {
        RecordField::Account
    } else if !is_text(fields.resource) {
        RecordField::Resource
    } else if !(is_text(fields.key) && !fields.key.is_empty()) {
        RecordField::Key
    } else if !(is_text(fields.commitment)
        && (is_priced_letter(fields.letter) || fields.commitment.is_empty()))
    {
        RecordField::Commitment
    } else {
        RecordField::Region
    }
}

/// Which number of an amendment is at fault, where one is: the first.
fn number_field(seq: &[u8], index: &[u8]) -> RecordField
    ensures { result ≡ number_field seq.now index.now }
{
    if read_whole(seq, 1, 1_000_000).is_none() {
        RecordField::Sequence
    } else if read_whole(index, 0, 999).is_none() {
        RecordField::Index
    } else {
        RecordField::Value
    }
}

/// The number that is at fault in an amendment's line.
fn amendment_field(line: &[u8]) -> Option<RecordField>
    requires few { length (fields_in line.now) < 9 }
    ensures { (version : Version) → record_in version (fields_in line.now) ≡ Err BatchCode.Number
        → result ≡ fault_field line.now }
{
    let Some(front) = first_two(line) else {
        return None;
    };
    match split_at_bar(front.rest) {
        Some((index, _)) => Some(number_field(front.second, index)),
        None => None,
    }
}

/// The field of a line that breaks its rule first, where the line is refused with this code.
fn fault_field(code: BatchCode, line: &[u8]) -> Option<RecordField>
    requires { is_of_field code ≡ true }
    ensures { (version : Version) → record_in version (fields_in line.now) ≡ Err code
        → result ≡ fault_field line.now }
{
    let Some(fields) = reading_fields(line) else {
        return amendment_field(line);
    };
    match code {
        BatchCode::Time => Some(time_field(&fields)),
        BatchCode::Text => Some(text_field(&fields)),
        BatchCode::Number => Some(RecordField::Value),
        BatchCode::Tags => Some(RecordField::Tags),
        BatchCode::Head | BatchCode::Count | BatchCode::Fields | BatchCode::TooLong => None,
    }
}

/// The line of a text of that number, counted from 1, without its line feed; None where the text has no such line.
pub(crate) fn line_at(text: &[u8], number: u32) -> Option<&[u8]>
    ensures { MatchOption result (line_at text.now number ≡ None)
        (λ line. line_at text.now number ≡ Some line.now) }
{
    let Some(at) = lines_length(text, number.saturating_sub(1)) else {
        return None;
    };
    let (_, behind) = text.split_at(at);
    match first_line(behind) {
        Some((line, _)) => Some(line),
        None => None,
    }
}

/// Whether a code is of a field.
fn is_of_field(code: BatchCode) -> bool
    ensures { result ≡ is_of_field code }
{
    match code {
        BatchCode::Time | BatchCode::Number | BatchCode::Text | BatchCode::Tags => true,
        BatchCode::Head | BatchCode::Count | BatchCode::Fields | BatchCode::TooLong => false,
    }
}

/// The field for which a text is no batch, where its first fault is of a field.
pub(crate) fn field_of(text: &[u8], fault: BatchFault) -> Option<RecordField>
    requires { batch_in text.now ≡ Err fault }
    ensures { result ≡ field_of text.now fault }
{
    if is_of_field(fault.code) {
        match line_at(text, fault.line) {
            Some(line) => fault_field(fault.code, line),
            None => None,
        }
    } else {
        None
    }
}
