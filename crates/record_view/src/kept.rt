//! A reading that was read before, made again from where its fields stand.

ghost use Rattle.std.specs.Prelude.{◌<◌, All, take};
ghost use Rattle.record_view.specs.Parts.{lent};
ghost use Rattle.record_view.specs.Spans.{IsReadingOn, IsRecordAt};
ghost use Rattle.record_view.specs.Inner.Placed.{IsPlaced};
ghost use Rattle.record_view.specs.Inner.KeptFields.{LiesWithin, StandsAt, HasTags, MayHaveRegion, HasRegion, IsLentAtSpans};

use crate::fields::{Field, Span, field_at};
use crate::records::{Reading, Record};
use crate::tags::Tags;
use fx_money::Value;
use metering_model::{Kind, Version};
use utc_calendar::Stamp;

/// What was read of a reading, but for its texts. The value is in millionths.
#[derive(Clone, Copy)]
pub struct Numbers {
    pub kind: Kind,
    pub start: Stamp,
    pub end: Stamp,
    /// In millionths.
    pub value: Value,
}

/// The field at one of the first nine spans.
#[inline(always)]
fn kept_field<'a>(source: &'a [u8], spans: &[Span; 10], index: usize) -> Field<'a>
    requires within { All (LiesWithin source.now) (take 9 spans.now) }
    requires nine { index < 9 }
    ensures stands { StandsAt source.now spans.now index result }
    ensures placed { IsPlaced (lent result) }
{
    field_at(source, spans[index])
}

/// The region that stands at the tenth span, in format B2.
#[inline(always)]
fn kept_region<'a>(version: Version, source: &'a [u8], spans: &[Span; 10]) -> Option<Field<'a>>
    requires { MayHaveRegion version source.now spans.now }
    ensures { HasRegion version source.now spans.now result }
{
    match version {
        Version::B1 => None,
        Version::B2 => Some(field_at(source, spans[9])),
    }
}

/// The reading whose fields stand at the spans.
#[inline(always)]
fn lend_fields<'a>(
    version: Version,
    source: &'a [u8],
    spans: &[Span; 10],
    numbers: Numbers,
) -> Reading<'a>
    requires within { All (LiesWithin source.now) (take 9 spans.now) }
    requires tags { HasTags source.now spans.now }
    requires region { MayHaveRegion version source.now spans.now }
    ensures { IsLentAtSpans version source.now spans.now numbers result }
{
    Reading {
        kind: numbers.kind,
        start: numbers.start,
        end: numbers.end,
        start_text: kept_field(source, spans, 1),
        end_text: kept_field(source, spans, 2),
        account: kept_field(source, spans, 3),
        resource: kept_field(source, spans, 4),
        key: kept_field(source, spans, 5),
        value: numbers.value,
        commitment: kept_field(source, spans, 7),
        tags: Tags::known(kept_field(source, spans, 8)),
        region: kept_region(version, source, spans),
    }
}

/// The reading of a line of a batch of that format, from the spans and numbers that were read of that line before. Its
/// texts are lent from the spans. It returns no error: that they are those of a line is required.
#[inline(always)]
pub fn kept_reading<'a>(
    version: Version,
    source: &'a [u8],
    spans: &[Span; 10],
    numbers: Numbers,
) -> Record<'a>
    requires { (line : Span) × IsReadingOn version source.now spans.now numbers line }
    ensures { (line : Span) → IsReadingOn version source.now spans.now numbers line
        → IsRecordAt version source.now line result }
{
    Record::Reading(lend_fields(version, source, spans, numbers))
}
