//! Where the fields of a record stand.

ghost use Rattle.std.specs.Prelude.{◌≡◌, ◌≢◌, ◌≤◌, length, take, slice_range, Ok, MatchOption, IfSome, ◌<◌, ◌-◌};
ghost use Rattle.metering_model.specs.BatchReading.{record_in, fields_in};
ghost use Rattle.metering_model.specs.Limits.{most_batch_bytes};
ghost use Rattle.record_view.specs.Lent.{record_of, fields_at, IsLentRecord};
ghost use Rattle.record_view.specs.Spans.{field_count, spans_at};

use crate::fields::{Field, Span, field_at, split_at_byte};
use crate::records::Record;
use metering_model::Version;

const BAR: u8 = b'|';

/// Stands after the last field of an amendment, and of a reading without a region.
const NOWHERE: Span = Span { from: 0, to: 0 };

/// The spans of the fields of a line that has four.
#[tactic(auto, using(crate::proofs::PartLaws::some_part))]
fn amendment_spans(source: &[u8], line: Span) -> Option<[Span; 10]>
    requires ordered { line.from ≤ line.to }
    requires within { line.to ≤ length source.now }
    ensures { MatchOption result (length (fields_at source.now line) ≢ 4)
        (λ spans. take 4 spans ≡ spans_at source.now line) }
{
    let (letter, rest) = split_at_byte(field_at(source, line), BAR)?;
    let (seq, rest) = split_at_byte(rest, BAR)?;
    let (index, value) = split_at_byte(rest, BAR)?;
    match split_at_byte(value, BAR) {
        Some(_) => None,
        None => Some([
            letter.span,
            seq.span,
            index.span,
            value.span,
            NOWHERE,
            NOWHERE,
            NOWHERE,
            NOWHERE,
            NOWHERE,
            NOWHERE,
        ]),
    }
}

/// Where the tags of a line end, and where its region stands: before the line's end, or else nowhere.
#[inline(always)]
fn last_spans(line: Span, region: Option<Field<'_>>) -> (u32, Span)
    requires { IfSome region (λ f. 0 < f.span.from) }
    ensures { MatchOption region.entry
        ((result.0 ≡ line.to) × (result.1 ≡ record { from = 0; to = 0 }))
        (λ f. (result.0 ≡ f.span.from - 1) × (result.1 ≡ f.span)) }
{
    match region {
        Some(region) => (region.span.from - 1, region.span),
        None => (line.to, NOWHERE),
    }
}

/// The spans of the fields of a record that was read from that line in a batch of that format, from left to right: nine
/// of a reading, or ten with its region, and four of an amendment. What stands after these in the array means nothing.
#[inline(always)]
pub fn field_spans(version: Version, source: &[u8], line: Span, what: &Record<'_>) -> [Span; 10]
    requires ordered { line.from ≤ line.to }
    requires within { line.to ≤ length source.now }
    requires short { length source.now ≤ most_batch_bytes }
    requires read { record_in version (fields_in (slice_range source.now line.from line.to))
        ≡ Ok (record_of what.now) }
    requires lent { IsLentRecord source.now line what.now }
    ensures { take (field_count version what.now) result ≡ spans_at source.now line }
{
    match what {
        Record::Reading(reading) => {
            let (tags_to, region) = last_spans(line, reading.region);
            [
                Span {
                    from: line.from,
                    to: reading.start_text.span.from - 1,
                },
                reading.start_text.span,
                reading.end_text.span,
                reading.account.span,
                reading.resource.span,
                reading.key.span,
                Span {
                    from: reading.key.span.to + 1,
                    to: reading.commitment.span.from - 1,
                },
                reading.commitment.span,
                Span {
                    from: reading.commitment.span.to + 1,
                    to: tags_to,
                },
                region,
            ]
        }
        Record::Amend { .. } => match amendment_spans(source, line) {
            Some(spans) => spans,
            None => unreachable!(),
        },
    }
}
