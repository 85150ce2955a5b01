//! What is found of each record when a batch is read, and the record of what was kept of it.

ghost use Rattle.std.specs.Prelude.{◌≡◌, ◌≤◌, length, take, slice_range, Err, MatchResult, MatchOption, IfSome};
ghost use Rattle.std.specs.List.{slice_get};
ghost use Rattle.metering_model.specs.BatchReading.{record_in, fields_in};
ghost use Rattle.metering_model.specs.Limits.{most_batch_bytes};
ghost use Rattle.record_view.specs.Lent.{record_of};
ghost use Rattle.record_view.specs.Spans.{spans_at, IsRecordAt};
ghost use Rattle.batch_view.specs.Inner.Lines.{lines_from, first_record};
ghost use Rattle.batch_view.specs.Inner.Entries.{field_total, FitsRecord, IsEntryAt, KeepsRecord};

use crate::lines::next_line;
use crate::packed::PackedEntry;
use metering_model::{BatchCode, Kind, Version};
use record_view::{
    Numbers, Record, Span, Stamp, StampReader, Value, field_spans, kept_reading, read_exact,
    read_plain,
};

/// What a record is, without its texts.
#[derive(Clone, Copy)]
pub(crate) enum Found {
    Reading {
        kind: Kind,
        start: Stamp,
        end: Stamp,
    },
    Amend {
        seq: u32,
        index: u16,
    },
}

/// What is found of a record: the spans of its nine fields, of ten with a region, or of an amendment's four, and its
/// numbers. It is kept as a [`PackedEntry`].
#[derive(Clone, Copy)]
pub(crate) struct Entry {
    pub(crate) spans: [Span; 10],
    pub(crate) value: Value,
    pub(crate) found: Found,
}

/// How many fields the record has, in a batch of that format.
pub(crate) fn field_total(version: Version, found: Found) -> usize
    ensures value { result ≡ field_total version found }
    ensures range { result ≤ 10 }
{
    match found {
        Found::Reading { .. } => match version {
            Version::B1 => 9,
            Version::B2 => 10,
        },
        Found::Amend { .. } => 4,
    }
}

/// What is kept of the record at that index.
pub(crate) fn entry_at(entries: &[PackedEntry], index: u16) -> Option<&PackedEntry>
    ensures { MatchOption result (length entries.now ≤ index)
        (λ e. slice_get entries.now index ≡ Some e.now) }
{
    let at = usize::from(index);
    if at < entries.len() {
        Some(&entries[at])
    } else {
        None
    }
}

/// What is found of a record that was read from that line.
#[inline(always)]
fn entry_of(version: Version, source: &[u8], line: Span, what: &Record<'_>) -> Entry
    requires ordered { line.from ≤ line.to }
    requires within { line.to ≤ length source.now }
    requires short { length source.now ≤ most_batch_bytes }
    requires read { IsRecordAt version source.now line what.now }
    ensures fits { FitsRecord result.found result.value (record_of what.now) }
    ensures spans { take (field_total version result.found) result.spans
        ≡ spans_at source.now line }
{
    let spans = field_spans(version, source, line, what);
    match what {
        Record::Reading(reading) => Entry {
            spans,
            value: reading.value,
            found: Found::Reading {
                kind: reading.kind,
                start: reading.start,
                end: reading.end,
            },
        },
        Record::Amend { seq, index, value } => Entry {
            spans,
            value: *value,
            found: Found::Amend {
                seq: *seq,
                index: *index,
            },
        },
    }
}

/// What is found of the reading of plain bytes that a line is. None says nothing of the line.
#[inline(always)]
fn plain_entry<'a>(
    version: Version,
    source: &'a [u8],
    line: Span,
    stamps: &mut StampReader<'a>,
) -> Option<Entry>
    requires ordered { line.from ≤ line.to }
    requires within { line.to ≤ length source.now }
    requires short { length source.now ≤ most_batch_bytes }
    ensures { IfSome result (IsEntryAt version source.now line) }
{
    match read_plain(version, source, line, stamps) {
        Some(record) => Some(entry_of(version, source, line, &record)),
        None => None,
    }
}

/// What is found of the record that a line is, or the rule that its first bad field breaks. Apart, so that the path of a
/// plain reading stays short.
#[inline(never)]
fn exact_entry(version: Version, source: &[u8], line: Span) -> Result<Entry, BatchCode>
    requires ordered { line.from ≤ line.to }
    requires within { line.to ≤ length source.now }
    requires short { length source.now ≤ most_batch_bytes }
    ensures { MatchResult result
        (IsEntryAt version source.now line)
        (λ code. record_in version (fields_in (slice_range source.now line.from line.to))
        ≡ Err code) }
{
    match read_exact(version, source, line) {
        Ok(record) => Ok(entry_of(version, source, line, &record)),
        Err(code) => Err(code),
    }
}

/// What is kept of the record whose line begins at `from`, and where the next line begins.
#[inline(always)]
pub(crate) fn entry_from<'a>(
    version: Version,
    text: &'a [u8],
    from: u32,
    stamps: &mut StampReader<'a>,
) -> Result<(PackedEntry, u32), BatchCode>
    requires within { from ≤ length text.now }
    requires short { length text.now ≤ most_batch_bytes }
    ensures { MatchResult result
        (λ kept. KeepsRecord version text.now from kept.0 kept.1)
        (λ code. first_record version (lines_from text.now from).lines ≡ Err code) }
{
    let Some(line) = next_line(text, from) else {
        return Err(BatchCode::Count);
    };
    let next = line.to + 1;
    if let Some(entry) = plain_entry(version, text, line, stamps) {
        return Ok((PackedEntry::of(&entry), next));
    }
    match exact_entry(version, text, line) {
        Ok(entry) => Ok((PackedEntry::of(&entry), next)),
        Err(code) => Err(code),
    }
}

/// The record of an entry: its texts are lent from the entry's spans, and nothing is looked through.
#[inline(always)]
pub(crate) fn record_of_entry<'a>(
    version: Version,
    bytes: &'a [u8],
    entry: &PackedEntry,
) -> Record<'a>
    requires { (line : Span) × IsEntryAt version bytes.now line entry.now }
    ensures { (line : Span) → IsEntryAt version bytes.now line entry.now
        → IsRecordAt version bytes.now line result }
{
    match entry.found() {
        Found::Reading { kind, start, end } => {
            let numbers = Numbers {
                kind,
                start,
                end,
                value: entry.value(),
            };
            kept_reading(version, bytes, &entry.spans(), numbers)
        }
        Found::Amend { seq, index } => Record::Amend {
            seq,
            index,
            value: entry.value(),
        },
    }
}
