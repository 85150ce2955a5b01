//! The records of a batch.

ghost use Rattle.std.specs.Prelude.{◌≡◌, ◌≤◌, length, slice_range, IfOk, IfErr, IfSome, IfNone, Ok, Err};
ghost use Rattle.metering_model.specs.BatchReading.{record_in, fields_in};
ghost use Rattle.metering_model.specs.Limits.{most_batch_bytes};
ghost use Rattle.record_view.specs.Parts.{lent};
ghost use Rattle.record_view.specs.Plain.{IsPlainReading};
ghost use Rattle.record_view.specs.Lent.{lent_tags, reading_tags, reading_region, record_of, IsLentRecord};

use crate::exact::{amendment_behind, exact_reading, is_amendment};
use crate::fields::{Field, Span, field_at, split_at_byte};
use crate::plain::split_letter;
use crate::plain_records::plain_behind;
use crate::regions::reading_in_region;
use crate::stamps::StampReader;
use crate::tags::Tags;
use fx_money::Value;
use metering_model::{BatchCode, Kind, Version};
use utc_calendar::Stamp;

/// What an agent metered. The value is in millionths.
#[derive(Clone, Copy)]
pub struct Reading<'a> {
    /// What it charges for.
    pub kind: Kind,
    /// The first moment of its time.
    pub start: Stamp,
    /// The moment after its time, later than the start.
    pub end: Stamp,
    /// The start as it stands in the batch.
    pub start_text: Field<'a>,
    /// The end as it stands in the batch.
    pub end_text: Field<'a>,
    /// Of whom it is metered, which may be the empty text.
    pub account: Field<'a>,
    /// What it is metered of, which may be the empty text.
    pub resource: Field<'a>,
    /// The SKU of usage and purchases; of other kinds the description of the charge. Not empty.
    pub key: Field<'a>,
    /// In millionths: metered units of usage and purchases, of other kinds the amount in the currency.
    pub value: Value,
    /// The commitment that usage or a purchase names; the empty text where there is none.
    pub commitment: Field<'a>,
    pub(crate) tags: Tags<'a>,
    pub(crate) region: Option<Field<'a>>,
}

impl<'a> Reading<'a> {
    /// The tags, by rising keys.
    pub fn tags(&self) -> Tags<'a>
        ensures { lent_tags result ≡ reading_tags self.now }
    {
        self.tags
    }

    /// Where the usage was, which may be the empty text; None in a batch of format B1.
    pub fn region(&self) -> Option<Field<'a>>
        ensures { result ≡ reading_region self.now }
    {
        self.region
    }
}

/// A record of a batch.
#[derive(Clone, Copy)]
pub enum Record<'a> {
    Reading(Reading<'a>),
    /// Gives the reading at that sequence and index of its agent another value.
    Amend { seq: u32, index: u16, value: Value },
}

/// The record that the line at this span is in a batch of that format, or None. Each reading is returned whose line has only
/// plain bytes (0x20 to 0x7B) and bars; of other lines None says nothing.
#[inline(always)]
pub fn read_plain<'a>(
    version: Version,
    source: &'a [u8],
    span: Span,
    stamps: &mut StampReader<'a>,
) -> Option<Record<'a>>
    requires ordered { span.from ≤ span.to }
    requires within { span.to ≤ length source.now }
    ensures ok { IfSome result (λ r.
        record_in version (fields_in (slice_range source.now span.from span.to))
        ≡ Ok (record_of r)) }
    ensures lent { IfSome result (IsLentRecord source.now span) }
    ensures all { IfNone result
        (IsPlainReading version (slice_range source.now span.from span.to) → ⊥) }
{
    let (letter, rest) = split_letter(field_at(source, span))?;
    if is_amendment(letter.text) {
        return None;
    }
    plain_behind(version, letter.text, rest, stamps)
}

/// The record that the line at this span is in a batch of that format, at most 65,536 bytes long. An error is the rule
/// that the first bad field breaks, from the left.
#[inline(always)]
pub fn read_exact<'a>(
    version: Version,
    source: &'a [u8],
    span: Span,
) -> Result<Record<'a>, BatchCode>
    requires ordered { span.from ≤ span.to }
    requires within { span.to ≤ length source.now }
    requires short { length source.now ≤ most_batch_bytes }
    ensures ok { IfOk result (λ r.
        record_in version (fields_in (slice_range source.now span.from span.to))
        ≡ Ok (record_of r)) }
    ensures err { IfErr result (λ e.
        record_in version (fields_in (slice_range source.now span.from span.to)) ≡ Err e) }
    ensures lent { IfOk result (IsLentRecord source.now span) }
{
    match split_at_byte(field_at(source, span), b'|') {
        Some((letter, rest)) => {
            if is_amendment(letter.text) {
                amendment_behind(letter.text, rest)
            } else {
                match version {
                    Version::B1 => exact_reading(letter.text, rest),
                    Version::B2 => reading_in_region(letter.text, rest),
                }
            }
        }
        None => Err(BatchCode::Fields),
    }
}

/// The record that the line at this span is in a batch of that format, at most 65,536 bytes long. An error is the rule
/// that the first bad field breaks, from the left.
#[inline(never)]
pub fn read_record<'a>(
    version: Version,
    source: &'a [u8],
    span: Span,
) -> Result<Record<'a>, BatchCode>
    requires ordered { span.from ≤ span.to }
    requires within { span.to ≤ length source.now }
    requires short { length source.now ≤ most_batch_bytes }
    ensures ok { IfOk result (λ r.
        record_in version (fields_in (slice_range source.now span.from span.to))
        ≡ Ok (record_of r)) }
    ensures err { IfErr result (λ e.
        record_in version (fields_in (slice_range source.now span.from span.to)) ≡ Err e) }
    ensures lent { IfOk result (IsLentRecord source.now span) }
{
    match read_plain(version, source, span, &mut StampReader::new()) {
        Some(record) => Ok(record),
        None => read_exact(version, source, span),
    }
}
