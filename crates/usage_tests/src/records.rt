//! A batch's records, as each call that hands them out tells them.

use crate::stores::offered;
use batch_view::{Asked, BatchView, Kind, Offer, OwnedBatch};
use record_view::{Reading, Record, Stamp};
use std::alloc::Global;

/// A reading of each kind, and an amendment.
const FIRST_FORMAT: &[u8] = b"B1|1|2|6\n\
U|2025-01-01T00:00:00Z|2025-01-01T02:00:00Z|acc-7|vm-1|cpu|5400|plan-1|env=prod\n\
P|2025-01-02T00:00:00Z|2025-02-01T00:00:00Z|acc-7||disk|1|plan-2|\n\
C|2025-01-03T00:00:00Z|2025-01-04T00:00:00Z|||Gift|-1||\n\
X|1|5|7200\n\
T|2025-01-04T00:00:01Z|2025-01-05T00:00:00Z|||Tax on all|0.5||\n\
A|2025-01-05T00:00:00Z|2025-01-06T00:00:00Z|||Rest|0.01||\n";

/// The same in regions. The last is one with a comma, a quotation mark and the last byte of texts.
const SECOND_FORMAT: &[u8] = b"B2|1|2|6\n\
U|2025-01-01T00:00:00Z|2025-01-01T02:00:00Z|acc-7|vm-1|cpu|5400|plan-1|env=prod|eu-1\n\
P|2025-01-02T00:00:00Z|2025-02-01T00:00:00Z|acc-7||disk|1|plan-2||eu-1\n\
C|2025-01-03T00:00:00Z|2025-01-04T00:00:00Z|||Gift|-1|||\n\
X|1|5|7200\n\
T|2025-01-04T00:00:01Z|2025-01-05T00:00:00Z|||Tax on all|0.5|||us-9\n\
A|2025-01-05T00:00:00Z|2025-01-06T00:00:00Z|||Rest|0.01|||a,\"b~\n";

/// What the text says of a record: a reading's kind, start in seconds since 1970-01-01, key and commitment, or an
/// amendment's sequence, index and value in millionths.
#[derive(Clone, Copy)]
enum Said<'a> {
    Reading(Kind, i64, &'a [u8], &'a [u8]),
    Amend(u32, u16, i64),
}

/// The same of both texts.
const SAID: [Said<'static>; 6] = [
    Said::Reading(Kind::Usage, 1_735_689_600, b"cpu", b"plan-1"),
    Said::Reading(Kind::Purchase, 1_735_776_000, b"disk", b"plan-2"),
    Said::Reading(Kind::Credit, 1_735_862_400, b"Gift", b""),
    Said::Amend(1, 5, 7_200_000_000),
    Said::Reading(Kind::Tax, 1_735_948_801, b"Tax on all", b""),
    Said::Reading(Kind::Adjustment, 1_736_035_200, b"Rest", b""),
];

/// Whether that is said of a reading.
fn is_said(said: &Said<'_>, of: Kind, since: Stamp, with: &[u8], by: &[u8]) -> bool {
    match said {
        Said::Reading(kind, start, key, commitment) => {
            of == *kind && since.seconds() == *start && with == *key && by == *commitment
        }
        Said::Amend(..) => false,
    }
}

/// Whether that is said of an amendment.
fn is_amended(said: &Said<'_>, by: (u32, u16, i64)) -> bool {
    match said {
        Said::Reading(..) => false,
        Said::Amend(seq, index, value) => by == (*seq, *index, *value),
    }
}

/// Whether the record is there, and that is said of it.
fn is_record(record: &Option<Record<'_>>, said: &Said<'_>) -> bool {
    match record {
        Some(Record::Reading(it)) => {
            is_said(said, it.kind, it.start, it.key.text, it.commitment.text)
        }
        Some(Record::Amend { seq, index, value }) => {
            is_amended(said, (*seq, *index, value.millionths()))
        }
        None => false,
    }
}

/// The text of a region, and of none one that no region has.
fn region_text<'a>(reading: &Reading<'a>) -> &'a [u8] {
    match reading.region() {
        Some(region) => region.text,
        None => b"|",
    }
}

/// Whether two readings have the same texts.
fn have_same_texts(one: &Reading<'_>, other: &Reading<'_>) -> bool {
    let account = one.account.text == other.account.text;
    let resource = one.resource.text == other.resource.text;
    let tags = one.tags().text() == other.tags().text();
    let region = region_text(one) == region_text(other);
    account && resource && tags && region
}

/// Whether the record is the reading there but for what is said of it, or there is none there.
fn is_like(record: &Option<Record<'_>>, found: &Reading<'_>) -> bool {
    match record {
        Some(Record::Reading(it)) => {
            it.end == found.end && it.value == found.value && have_same_texts(it, found)
        }
        _ => false,
    }
}

/// Whether two records are the same but for what is said of them.
fn is_same(record: &Option<Record<'_>>, found: &Option<Record<'_>>) -> bool {
    match found {
        Some(Record::Reading(it)) => is_like(record, it),
        _ => true,
    }
}

/// Whether it is asked, and that is said of it.
fn is_asked(asked: &Option<Asked<'_>>, said: &Said<'_>) -> bool {
    match asked {
        Some(Asked::Reading(it)) => is_said(said, it.kind, it.start, it.key, it.commitment),
        Some(Asked::Amend { seq, index, value }) => {
            is_amended(said, (*seq, *index, value.millionths()))
        }
        None => false,
    }
}

/// Whether that is said of the kind of what stands there.
fn is_kind(found: Option<Kind>, said: &Said<'_>) -> bool {
    match said {
        Said::Reading(kind, ..) => found == Some(*kind),
        Said::Amend(..) => found.is_none(),
    }
}

/// Whether each call tells just what is said of the records.
fn tells(view: &BatchView<'_>) -> bool {
    let mut records = view.records();
    let mut asked = view.asked();
    let mut all = true;
    for index in 0..6 {
        let said = &SAID[usize::from(index)];
        let record = records.next();
        let found = view.record_at(index);
        all = is_record(&record, said)
            && is_asked(&asked.next(), said)
            && is_record(&found, said)
            && is_same(&record, &found)
            && is_kind(view.kind_at(index), said)
            && all;
    }
    all && records.next().is_none()
        && asked.next().is_none()
        && view.record_at(6).is_none()
        && view.kind_at(6).is_none()
        && view.count() == 6
}

/// Whether a reading has just this region, which ends where its line does, or none where there is no text.
fn is_in(reading: &Reading<'_>, region: Option<&[u8]>, line_end: usize) -> bool {
    match (reading.region(), region) {
        (Some(field), Some(text)) => field.text == text && field.span.to as usize == line_end,
        (found, text) => found.is_none() && text.is_none(),
    }
}

/// Whether the last record is a reading in this region.
fn ends_in(view: &BatchView<'_>, region: Option<&[u8]>) -> bool {
    let end = view.bytes().len() - 1;
    match &view.record_at(5) {
        Some(Record::Reading(reading)) => is_in(reading, region, end),
        _ => false,
    }
}

/// Whether the third record is a reading whose region is the empty text, or that has none.
fn is_nowhere(view: &BatchView<'_>, is_some: bool) -> bool {
    match &view.record_at(2) {
        Some(Record::Reading(reading)) => match reading.region() {
            Some(field) => is_some && field.text.is_empty(),
            None => !is_some,
        },
        _ => false,
    }
}

/// Whether the record at this index has so many spans.
fn has_spans(kept: &OwnedBatch, index: u16, count: usize) -> bool {
    match kept.spans(index) {
        Some(spans) => spans.as_slice().len() == count,
        None => false,
    }
}

/// Whether each call tells what is said, and regions where there is one.
fn tells_all(view: &BatchView<'_>, region: Option<&[u8]>) -> bool {
    tells(view) && ends_in(view, region) && is_nowhere(view, region.is_some())
}

/// Whether the batch tells the same, read in place and kept, and of a reading that is kept so many spans.
fn is_read(alloc: Global, bytes: &[u8], region: Option<&[u8]>, fields: usize) -> bool {
    let in_place = match BatchView::parse(bytes) {
        Ok(view) => tells_all(&view, region),
        Err(_) => false,
    };
    match offered(alloc, bytes) {
        Ok(Offer::Good(kept)) => {
            in_place && tells_all(&kept.view(), region) && has_spans(&kept, 0, fields)
        }
        _ => false,
    }
}

/// A reading has nine fields in the first format, and none of them is a region; in the second it has ten.
#[test]
fn records_are_told_alike_by_each_call(rt: HostRuntime) {
    assert!(rt; is_read(rt.alloc(), FIRST_FORMAT, None, 9));
    assert!(rt; is_read(rt.alloc(), SECOND_FORMAT, Some(b"a,\"b~"), 10));
}
