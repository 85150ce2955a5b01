//! What is told of a batch that is refused.

ghost use Rattle.std.specs.Prelude.{◌≡◌, [], ◌∷◌, ◌++◌, Err, Some, OnOk, codes};
ghost use Rattle.metering_model.specs.Batch.{Reads};
ghost use Rattle.metering_model.specs.BatchReading.{batch_in};
ghost use Rattle.metering_model.specs.Transcript.{with_number};
ghost use Rattle.metering_model.specs.declared.BatchFault.{BatchFault};
ghost use Rattle.batch_view.specs.Lent.{model_reading, record_of};
ghost use Rattle.fault_lines.specs.Told.{line_within, more_words, record_at, record_words, told_at, told_of_text, words_of};

use crate::fields::{field_of, field_words};
use crate::text_kinds::batch_words;
use answer_words::{code_word, kept_code_word, refusal_line};
use batch_view::{BatchView, Reading, Record};
use byte_text::put_numbered;
use metering_model::Refusal;
use price_sheet::Sheet;
use std::alloc::AllocError;

/// Appends a text and another.
pub(crate) fn put_both(told: &mut Vec<u8>, first: &[u8], second: &[u8]) -> Result<(), AllocError>
    ensures { OnOk result (told.new.items ≡ told.old.items ++ (first.now ++ second.now)) }
{
    let Ok(()) = told.extend_from_slice(first) else {
        return Err(AllocError);
    };
    told.extend_from_slice(second)
}

/// Appends the code of a refusal and what it tells, but for a line.
fn put_words(told: &mut Vec<u8>, refusal: Refusal) -> Result<(), AllocError>
    ensures { OnOk result (told.new.items ≡ told.old.items ++ words_of refusal) }
{
    match refusal {
        Refusal::BadBatch(fault) => put_both(told, b"G1 ", code_word(fault.code)),
        Refusal::BadKept(fault) => put_both(told, b"G14 ", kept_code_word(fault.code)),
        _ => told.extend_from_slice(refusal_line(refusal).as_slice()),
    }
}

/// Appends the line of the input on which something is wrong, and a colon.
pub(crate) fn put_place(told: &mut Vec<u8>, line: u128) -> Result<(), AllocError>
    ensures { OnOk result (told.new.items
        ≡ told.old.items ++ (with_number (codes "line ") line ++ codes ": ")) }
{
    let Ok(()) = put_numbered(told, b"line ", line) else {
        return Err(AllocError);
    };
    told.extend_from_slice(b": ")
}

/// Appends the end of a line.
#[inline(always)]
pub(crate) fn put_end(told: &mut Vec<u8>) -> Result<(), AllocError>
    ensures { OnOk result (told.new.items ≡ told.old.items ++ 10 ∷ []) }
{
    told.extend_from_slice(b"\n")
}

/// Appends that something is refused at a line of the input.
pub fn put_at(told: &mut Vec<u8>, line: u128, refusal: Refusal) -> Result<(), AllocError>
    ensures { OnOk result (told.new.items ≡ told.old.items ++ told_at line (words_of refusal)) }
{
    let Ok(()) = put_place(told, line) else {
        return Err(AllocError);
    };
    let Ok(()) = put_words(told, refusal) else {
        return Err(AllocError);
    };
    put_end(told)
}

/// Appends what a bad reading lacks: a price on its day, or else the commitment that it names.
fn put_lacking(told: &mut Vec<u8>, sheet: &Sheet, reading: &Reading<'_>) -> Result<(), AllocError>
    ensures { OnOk result (told.new.items ≡ told.old.items
        ++ record_words sheet.now (Some (Reads (model_reading reading.now)))) }
{
    if sheet.price(reading.key.text, reading.start.day()).is_some() {
        put_both(told, b" commitment ", reading.commitment.text)
    } else {
        put_both(told, b" price ", reading.key.text)
    }
}

/// Appends what is told of a bad record: an amendment's target, or what a reading lacks.
fn put_record(told: &mut Vec<u8>, sheet: &Sheet, what: &Record<'_>) -> Result<(), AllocError>
    ensures { OnOk result (told.new.items
        ≡ told.old.items ++ record_words sheet.now (Some (record_of what.now))) }
{
    match what {
        Record::Amend { seq, index, .. } => {
            let Ok(()) = put_numbered(told, b" ", u128::from(*seq)) else {
                return Err(AllocError);
            };
            put_numbered(told, b" ", u128::from(*index))
        }
        Record::Reading(reading) => put_lacking(told, sheet, reading),
    }
}

/// Appends what is told of the record at an index of a batch.
fn put_record_at(
    told: &mut Vec<u8>,
    sheet: &Sheet,
    text: &[u8],
    index: u16,
) -> Result<(), AllocError>
    ensures { OnOk result (told.new.items ≡ told.old.items
        ++ record_words sheet.now (record_at text.now (Some index))) }
{
    let Ok(view) = BatchView::parse(text) else {
        return Ok(());
    };
    match view.record_at(index) {
        Some(record) => put_record(told, sheet, &record),
        None => Ok(()),
    }
}

/// Appends what is told behind the code of a batch's refusal: of its own fault the field, and what its text or its line is, of a
/// bad record its words.
fn put_more(
    told: &mut Vec<u8>,
    sheet: &Sheet,
    text: &[u8],
    bad: Option<u16>,
    refusal: Refusal,
) -> Result<(), AllocError>
    requires { (fault : BatchFault) → refusal ≡ Refusal.BadBatch fault
        → batch_in text.now ≡ Err fault }
    ensures { OnOk result (told.new.items
        ≡ told.old.items ++ more_words sheet.now text.now bad refusal) }
{
    match refusal {
        Refusal::BadBatch(fault) => put_both(
            told,
            field_words(field_of(text, fault)),
            batch_words(text, fault),
        ),
        Refusal::BadTarget | Refusal::Unpriced => match bad {
            Some(index) => put_record_at(told, sheet, text, index),
            None => Ok(()),
        },
        _ => Ok(()),
    }
}

/// On which line of its own text a batch is refused, where this is its first bad record. The head is line 1.
fn line_within(bad: Option<u16>, refusal: Refusal) -> u32
    ensures { result ≡ line_within bad refusal }
{
    match refusal {
        Refusal::BadBatch(fault) => fault.line,
        Refusal::WrongSeq { .. } | Refusal::NoAgent => 1,
        Refusal::BadTarget | Refusal::Unpriced => match bad {
            Some(index) => u32::from(index) + 2,
            None => 1,
        },
        _ => 0,
    }
}

/// Appends what is told of a batch's refusal, behind its line.
fn put_refused_words(
    told: &mut Vec<u8>,
    sheet: &Sheet,
    text: &[u8],
    bad: Option<u16>,
    refusal: Refusal,
) -> Result<(), AllocError>
    requires { (fault : BatchFault) → refusal ≡ Refusal.BadBatch fault
        → batch_in text.now ≡ Err fault }
    ensures { OnOk result (told.new.items ≡ told.old.items
        ++ (words_of refusal ++ (more_words sheet.now text.now bad refusal ++ 10 ∷ []))) }
{
    let Ok(()) = put_words(told, refusal) else {
        return Err(AllocError);
    };
    let Ok(()) = put_more(told, sheet, text, bad, refusal) else {
        return Err(AllocError);
    };
    put_end(told)
}

/// Appends that a text after so many lines of the input is refused as a batch, of which this is the first bad record.
pub fn put_refused_text(
    told: &mut Vec<u8>,
    lines: usize,
    sheet: &Sheet,
    text: &[u8],
    bad: Option<u16>,
    refusal: Refusal,
) -> Result<(), AllocError>
    requires { (fault : BatchFault) → refusal ≡ Refusal.BadBatch fault
        → batch_in text.now ≡ Err fault }
    ensures { OnOk result (told.new.items
        ≡ told.old.items ++ told_of_text lines sheet.now text.now bad refusal) }
{
    let within = line_within(bad, refusal);
    let Ok(()) = put_place(told, lines as u128 + u128::from(within)) else {
        return Err(AllocError);
    };
    put_refused_words(told, sheet, text, bad, refusal)
}
