//! Batches, and their records in order.

ghost use Rattle.std.specs.Prelude.{◌≡◌, ◌≤◌, ◌<◌, length, Some, Ok, Err, IfOk, IfErr, IfSome, IsSome, ◌↔◌};
ghost use Rattle.std.specs.List.{slice_get};
ghost use Rattle.metering_model.specs.BatchReading.{batch_in};
ghost use Rattle.metering_model.specs.Limits.{last_sequence, most_agents, most_records};
ghost use Rattle.record_view.specs.Lent.{record_of};
ghost use Rattle.batch_view.specs.Batches.{batch_of, IsLentAt, RecordsLeft};
ghost use Rattle.batch_view.specs.Kept.{kind_in};
ghost use Rattle.batch_view.specs.Inner.Given.{kind_found};
ghost use Rattle.batch_view.specs.Inner.Kept.{KeepsBatch};

use crate::entries::{Found, entry_at, record_of_entry};
use crate::first_fault::{check_batch, record_from};
use crate::head::Head;
use crate::lines::next_line;
use crate::packed::PackedEntry;
use metering_model::{BatchFault, Kind};
use record_view::Record;
use std::marker::Model;

/// The record at that index, from its entry.
#[inline(always)]
pub(crate) fn kept_record<'a>(
    bytes: &'a [u8],
    head: Head,
    entries: &[PackedEntry],
    index: u16,
) -> Option<Record<'a>>
    requires { KeepsBatch bytes.now head entries.now }
    ensures there { IsSome result ↔ (index < length (batch_of bytes.now).records) }
    ensures record { IfSome result
        (λ r. slice_get (batch_of bytes.now).records index ≡ Some (record_of r)) }
    ensures lent { IfSome result (IsLentAt bytes.now index) }
{
    match entry_at(entries, index) {
        Some(entry) => Some(record_of_entry(head.version, bytes, entry)),
        None => None,
    }
}

/// What was found of a reading: its kind.
fn kind_found(found: Found) -> Option<Kind>
    ensures { result ≡ kind_found found }
{
    match found {
        Found::Reading { kind, .. } => Some(kind),
        Found::Amend { .. } => None,
    }
}

/// The kind of the reading at that index of bytes with this head, from its entry. (Bytes and head are for the proof
/// alone.)
fn kept_kind(_bytes: &[u8], _head: Head, entries: &[PackedEntry], index: u16) -> Option<Kind>
    requires { KeepsBatch _bytes.now _head entries.now }
    ensures { result ≡ kind_in (batch_of _bytes.now) index }
{
    match entry_at(entries, index) {
        Some(entry) => kind_found(entry.found()),
        None => None,
    }
}

/// Bytes that are a batch, read in place, or looked up where an `OwnedBatch` keeps what was found in them.
#[derive(Drop)]
pub struct BatchView<'a> {
    pub(crate) bytes: &'a [u8],
    pub(crate) head: Head,
    pub(crate) kept: Option<&'a [PackedEntry]>,
}

impl<'a> Model for BatchView<'a> {
    ghost use Rattle.std.specs.Prelude.{ℕ, List};
    ghost use Rattle.batch_view.specs.Inner.Entries.{IsViewOf};

    ghost Value = { List ℕ };

    ghost view = { λ v. v.bytes.now };

    ghost invariant = { λ v. IsViewOf v.bytes.now v.head v.kept };
}

impl<'a> BatchView<'a> {
    /// The batch that these bytes are. An error is their first fault: from the top, and in a line from the left.
    pub fn parse(bytes: &'a [u8]) -> Result<BatchView<'a>, BatchFault>
        ensures ok { IfOk result
            (λ view. (view ≡ bytes.now) × (batch_in bytes.now ≡ Ok (batch_of bytes.now))) }
        ensures err { IfErr result (λ fault. batch_in bytes.now ≡ Err fault) }
    {
        let head = check_batch(bytes)?;
        Ok(BatchView {
            bytes,
            head,
            kept: None,
        })
    }

    /// The view of a batch that was read before, over what is kept of its records.
    pub(crate) fn with_entries(
        bytes: &'a [u8],
        head: Head,
        entries: &'a [PackedEntry],
    ) -> BatchView<'a>
        requires { KeepsBatch bytes.now head entries.now }
        ensures { result ≡ bytes.now }
    {
        BatchView {
            bytes,
            head,
            kept: Some(entries),
        }
    }

    /// The bytes of the batch, all of them.
    pub fn bytes(&self) -> &'a [u8]
        ensures bytes { result.now ≡ self.now }
        ensures batch { batch_in self.now ≡ Ok (batch_of self.now) }
    {
        self.bytes
    }

    /// The agent that sent the batch, from 1 to 64.
    pub fn agent(&self) -> u8
        ensures value { result ≡ (batch_of self.now).agent }
        ensures range { (1 ≤ result) × (result ≤ most_agents) }
    {
        self.head.agent
    }

    /// The sequence of the batch among those of its agent, from 1 to 1,000,000.
    pub fn seq(&self) -> u32
        ensures value { result ≡ (batch_of self.now).seq }
        ensures range { (1 ≤ result) × (result ≤ last_sequence) }
    {
        self.head.seq
    }

    /// The number of records, from 0 to 1,000.
    pub fn count(&self) -> u16
        ensures value { result ≡ length (batch_of self.now).records }
        ensures range { result ≤ most_records }
    {
        self.head.count
    }

    /// The records, in order.
    pub fn records(&self) -> Records<'a>
        ensures { result ≡ record { bytes = self.now; index = 0 } }
    {
        Records {
            bytes: self.bytes,
            head: self.head,
            kept: self.kept,
            index: 0,
            at: self.head.records_from,
        }
    }

    /// The record at that index, counted from 0; None from the count on.
    pub fn record_at(&self, index: u16) -> Option<Record<'a>>
        ensures there { IsSome result ↔ (index < length (batch_of self.now).records) }
        ensures record { IfSome result
            (λ r. slice_get (batch_of self.now).records index ≡ Some (record_of r)) }
        ensures lent { IfSome result (IsLentAt self.now index) }
    {
        match self.kept {
            Some(entries) => kept_record(self.bytes, self.head, entries, index),
            None => self.look_for(index),
        }
    }

    /// The kind of the reading at that index; None where an amendment stands there, and from the count on.
    pub fn kind_at(&self, index: u16) -> Option<Kind>
        ensures { result ≡ kind_in (batch_of self.now) index }
    {
        match self.kept {
            Some(entries) => kept_kind(self.bytes, self.head, entries, index),
            None => self.kind_looked_for(index),
        }
    }

    /// The kind of the reading at that index, looked for from the beginning.
    fn kind_looked_for(&self, index: u16) -> Option<Kind>
        ensures { result ≡ kind_in (batch_of self.now) index }
    {
        match self.look_for(index) {
            Some(Record::Reading(reading)) => Some(reading.kind),
            Some(Record::Amend { .. }) => None,
            None => None,
        }
    }

    /// The record at that index, looked for from the beginning.
    fn look_for(&self, index: u16) -> Option<Record<'a>>
        ensures there { IsSome result ↔ (index < length (batch_of self.now).records) }
        ensures record { IfSome result
            (λ r. slice_get (batch_of self.now).records index ≡ Some (record_of r)) }
        ensures lent { IfSome result (IsLentAt self.now index) }
    {
        if index >= self.head.count {
            return None;
        }
        let mut at = self.head.records_from;
        for _ in 0..index {
            at = next_line(self.bytes, at)?.to + 1;
        }
        match record_from(self.head.version, self.bytes, at) {
            Ok((record, _)) => Some(record),
            Err(_) => None,
        }
    }
}

/// The records of a batch that are still to come.
#[derive(Drop)]
pub struct Records<'a> {
    bytes: &'a [u8],
    head: Head,
    kept: Option<&'a [PackedEntry]>,
    index: u16,
    // Where the next line begins. Over kept entries it stays where it was.
    at: u32,
}

impl<'a> Model for Records<'a> {
    ghost use Rattle.batch_view.specs.Batches.{RecordsLeft};
    ghost use Rattle.batch_view.specs.Inner.Entries.{IsWalk};

    ghost Value = { RecordsLeft };

    ghost view = { λ r. record { bytes = r.bytes.now; index = r.index } };

    ghost invariant = { λ r. IsWalk r.bytes.now r.head r.kept r.index r.at };
}

impl<'a> Iterator for Records<'a> {
    ghost use Rattle.std.specs.Iterator.{item_count};
    ghost use Rattle.batch_view.specs.Batches.{records_left, GivesNext};

    type Item = Record<'a>;

    ghost next_gives = { GivesNext };

    ghost remaining = { item_count records_left };

    fn next(&mut self) -> Option<Record<'a>> {
        let end = self.head.count;
        if self.index == end {
            return None;
        }
        if let Some(entries) = self.kept {
            let record = kept_record(self.bytes, self.head, entries, self.index);
            self.index += 1;
            return record;
        }
        match record_from(self.head.version, self.bytes, self.at) {
            Ok((record, next)) => {
                self.at = next;
                self.index += 1;
                Some(record)
            }
            Err(_) => None,
        }
    }
}
