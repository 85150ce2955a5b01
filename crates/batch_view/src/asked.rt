//! What the rules of the journals ask of a batch's records, without their other fields.

ghost use Rattle.std.specs.Prelude.{◌≡◌};
ghost use Rattle.std.specs.List.{slice_get};
ghost use Rattle.std.specs.Option.{option_map};
ghost use Rattle.record_view.specs.Lent.{record_of};
ghost use Rattle.batch_view.specs.Asked.{asked_in, record_asked};
ghost use Rattle.batch_view.specs.Batches.{batch_of, RecordsLeft};
ghost use Rattle.batch_view.specs.Inner.Kept.{KeepsBatch};

use crate::batch::{BatchView, kept_record};
use crate::first_fault::record_from;
use crate::head::Head;
use crate::packed::PackedEntry;
use metering_model::Kind;
use record_view::{Record, Stamp, Value};
use std::marker::Model;

/// What the rules of the journals look at in a reading.
#[derive(Clone, Copy)]
pub struct AskedReading<'a> {
    pub kind: Kind,
    pub start: Stamp,
    pub key: &'a [u8],
    pub commitment: &'a [u8],
}

/// What the rules of the journals look at in a record.
#[derive(Clone, Copy)]
pub enum Asked<'a> {
    Reading(AskedReading<'a>),
    Amend { seq: u32, index: u16, value: Value },
}

/// What is asked of the record.
#[inline(always)]
fn asked_of_record<'a>(what: &Record<'a>) -> Asked<'a>
    ensures { record_asked result ≡ asked_in (record_of what.now) }
{
    match what {
        Record::Reading(reading) => Asked::Reading(AskedReading {
            kind: reading.kind,
            start: reading.start,
            key: reading.key.text,
            commitment: reading.commitment.text,
        }),
        Record::Amend { seq, index, value } => Asked::Amend {
            seq: *seq,
            index: *index,
            value: *value,
        },
    }
}

/// What is asked of the record at that index, from its entry.
#[inline(always)]
fn kept_asked<'a>(
    bytes: &'a [u8],
    head: Head,
    entries: &[PackedEntry],
    index: u16,
) -> Option<Asked<'a>>
    requires { KeepsBatch bytes.now head entries.now }
    ensures { option_map record_asked result
        ≡ option_map asked_in (slice_get (batch_of bytes.now).records index) }
{
    match kept_record(bytes, head, entries, index) {
        Some(record) => Some(asked_of_record(&record)),
        None => None,
    }
}

impl<'a> BatchView<'a> {
    /// What the rules of the journals look at in each record, in order.
    pub fn asked(&self) -> AskedRecords<'a>
        ensures { result ≡ record { bytes = self.now; index = 0 } }
    {
        AskedRecords {
            bytes: self.bytes,
            head: self.head,
            kept: self.kept,
            index: 0,
            at: self.head.records_from,
        }
    }
}

/// What the rules look at in the records of a batch that are still to come.
#[derive(Drop)]
pub struct AskedRecords<'a> {
    bytes: &'a [u8],
    head: Head,
    kept: Option<&'a [PackedEntry]>,
    index: u16,
    // Where the next line begins. Over kept entries it stays where it was.
    at: u32,
}

impl<'a> Model for AskedRecords<'a> {
    ghost use Rattle.batch_view.specs.Batches.{RecordsLeft};
    ghost use Rattle.batch_view.specs.Inner.Entries.{IsWalk};

    ghost Value = { RecordsLeft };

    ghost view = { λ r. record { bytes = r.bytes.now; index = r.index } };

    ghost invariant = { λ r. IsWalk r.bytes.now r.head r.kept r.index r.at };
}

impl<'a> Iterator for AskedRecords<'a> {
    ghost use Rattle.std.specs.Iterator.{item_count};
    ghost use Rattle.batch_view.specs.Asked.{asked_left, GivesAsked};

    type Item = Asked<'a>;

    ghost next_gives = { GivesAsked };

    ghost remaining = { item_count asked_left };

    #[inline(always)]
    fn next(&mut self) -> Option<Asked<'a>> {
        let end = self.head.count;
        if self.index == end {
            return None;
        }
        if let Some(entries) = self.kept {
            let asked = kept_asked(self.bytes, self.head, entries, self.index);
            self.index += 1;
            return asked;
        }
        match record_from(self.head.version, self.bytes, self.at) {
            Ok((record, next)) => {
                self.at = next;
                self.index += 1;
                Some(asked_of_record(&record))
            }
            Err(_) => None,
        }
    }
}
