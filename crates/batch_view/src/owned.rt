//! Batches that keep their bytes.

ghost use Rattle.std.specs.Prelude.{◌≡◌, ◌↔◌, ◌<◌, ◌≤◌, ℕ, ℤ, length, take, Ok, Err, IfOk, IfErr, IfSome, IsSome, None, Some, MatchOption, MatchResult};
ghost use Rattle.std.specs.Arc.{arc_value};
ghost use Rattle.std.specs.List.{list_all, slice_get, slice_index_or, slice_range};
ghost use Rattle.std.specs.Option.{option_or};
ghost use Rattle.metering_model.specs.Batch.{Reading as ModelReading, Reads};
ghost use Rattle.metering_model.specs.BatchReading.{batch_in};
ghost use Rattle.metering_model.specs.Front.{starts_before};
ghost use Rattle.batch_view.specs.Batches.{batch_of};
ghost use Rattle.batch_view.specs.Kept.{AreAmendmentsOf, AreFieldSpans, value_given_in};
ghost use Rattle.batch_view.specs.Offers.{IsOfferOf};
ghost use Rattle.batch_view.specs.Extents.{extent_in};
ghost use Rattle.batch_view.specs.Inner.Bytes.{AreThere, bytes_in};
ghost use Rattle.batch_view.specs.Inner.Kept.{IfFault, KeepsBatch};
ghost use Rattle.batch_view.specs.Inner.Given.{HasReading, LacksReading};

use crate::amendments::{is_before, last_amendment, latest_start, sorted_amendments};
use crate::batch::BatchView;
use crate::bytes::BatchBytes;
use crate::entries::{Found, entry_at, field_total};
use crate::extents::first_batch;
use crate::filling::fill_named;
use crate::first_fault::check_batch;
use crate::head::Head;
use crate::keeping::{Unkept, keep_batch, keep_below};
use crate::packed::{PackedEntry, Spans};
use metering_model::BatchFault;
use record_view::{Stamp, Value};
use std::alloc::{AllocError, AllocFailed, Global};
use std::marker::Model;
use std::sync::Arc;

/// An amendment of a batch: from now on the reading at that sequence and index of its agent has this value, in
/// millionths.
#[derive(Clone, Copy)]
pub struct Amendment {
    /// The sequence of the batch that has the reading, from 1.
    pub seq: u32,
    /// The index of the reading in that batch, from 0.
    pub index: u16,
    /// The new value, in millionths.
    pub value: Value,
    /// The index of the amendment itself.
    pub own: u16,
}

/// Bytes that are a batch, and what was found when they were read: an entry of each record, the amendments by the
/// position that each names, and the latest start of a reading.
#[derive(Drop)]
pub struct OwnedBatch {
    bytes: BatchBytes,
    head: Head,
    entries: Vec<PackedEntry>,
    amendments: Vec<Amendment>,
    latest: Option<Stamp>,
}

impl Model for OwnedBatch {
    ghost use Rattle.std.specs.Prelude.{ℕ, List};
    ghost use Rattle.batch_view.specs.Inner.Bytes.{AreThere, bytes_in};
    ghost use Rattle.batch_view.specs.Inner.Kept.{KeepsParts};

    ghost Value = { List ℕ };

    ghost view = { λ b. bytes_in b.bytes };

    ghost invariant = { λ b. AreThere b.bytes
        × KeepsParts (bytes_in b.bytes) b.head b.entries.items b.amendments.items b.latest };
}

impl OwnedBatch {
    /// The batch that is kept.
    pub fn view(&self) -> BatchView<'_>
        ensures { result ≡ self.now }
    {
        BatchView::with_entries(self.bytes.as_slice(), self.head, self.entries.as_slice())
    }

    /// The bytes that are kept.
    pub fn bytes(&self) -> &[u8]
        ensures bytes { result.now ≡ self.now }
        ensures batch { batch_in self.now ≡ Ok (batch_of self.now) }
    {
        self.bytes.as_slice()
    }

    /// Where the fields of the record at that index stand, from left to right, in bytes from the beginning of the
    /// batch; None from the count on.
    pub fn spans(&self, index: u16) -> Option<Spans>
        ensures there { IsSome result ↔ (index < length (batch_of self.now).records) }
        ensures spans { IfSome result (AreFieldSpans self.now index) }
    {
        let entry = entry_at(&self.entries, index)?;
        Some(Spans::first(entry.spans(), field_total(self.head.version, entry.found())))
    }

    /// The amendments, by the position that each names, then by their own index.
    pub fn amendments(&self) -> &[Amendment]
        ensures { AreAmendmentsOf (batch_of self.now) result.now }
    {
        &self.amendments
    }

    /// The value that the batch gives the reading at that sequence and index of its agent: that of the last of its
    /// records that is the reading or amends it. An amendment above a reading of the same batch changes nothing of it.
    /// None where no record is or amends it.
    pub fn value_given(&self, seq: u32, index: u16) -> Option<Value>
        ensures { result ≡ value_given_in (batch_of self.now) seq index }
    {
        let Some(amendment) = last_amendment(&self.amendments, seq, index) else {
            return self.own_value(seq, index);
        };
        match self.own_value(seq, index) {
            Some(value) => {
                if amendment.own < index {
                    Some(value)
                } else {
                    Some(amendment.value)
                }
            }
            None => Some(amendment.value),
        }
    }

    /// Fills in what the batch gives the readings of its agent's batch at `seq`, at their indexes, where nothing stands.
    /// A reading of its own need not be given the value that it has by itself. Of its amendments those are looked at
    /// that name `seq`, after a search.
    pub fn fill_given(&self, seq: u32, values: &mut [Option<Value>])
        ensures length { length values.new ≡ length values.old }
        ensures kept { (k : ℕ) (v : ℤ) → k < length values.old
            → slice_index_or values.old k None ≡ Some v
            → slice_index_or values.new k None ≡ Some v }
        ensures later { (seq ≡ (batch_of self.now).seq → ⊥)
            → (k : ℕ) → k < length values.old → slice_index_or values.new k None
            ≡ option_or (slice_index_or values.old k None)
            (value_given_in (batch_of self.now) seq k) }
        ensures own { seq ≡ (batch_of self.now).seq → (k : ℕ) (r : ModelReading)
            → k < length values.old → slice_get (batch_of self.now).records k ≡ Some (Reads r)
            → option_or (slice_index_or values.new k None) (Some r.value)
            ≡ option_or (slice_index_or values.old k None)
            (value_given_in (batch_of self.now) seq k) }
    {
        fill_named(&self.amendments, seq, seq == self.head.seq, values);
    }

    /// The value of the reading at that sequence and index, if it is one of the batch itself.
    fn own_value(&self, seq: u32, index: u16) -> Option<Value>
        ensures { MatchOption result
            (LacksReading (batch_of self.now) seq index)
            (HasReading (batch_of self.now) seq index) }
    {
        if seq != self.head.seq {
            return None;
        }
        let entry = entry_at(&self.entries, index)?;
        match entry.found() {
            Found::Reading { .. } => Some(entry.value()),
            Found::Amend { .. } => None,
        }
    }

    /// Whether each reading starts before that moment. It is so of a batch without readings.
    pub fn starts_before(&self, moment: Stamp) -> bool
        ensures { result ≡ list_all (starts_before moment) (batch_of self.now).records }
    {
        is_before(self.latest, moment)
    }
}

/// What comes of bytes that are offered as a batch.
#[derive(Drop)]
pub enum Offer {
    /// They are a batch.
    Good(Arc<OwnedBatch>),
    /// They are none, for this fault.
    Bad(BatchFault),
}

/// Shares the batch with what its entries tell.
fn keep_parts(
    alloc: Global,
    bytes: BatchBytes,
    head: Head,
    entries: Vec<PackedEntry>,
) -> Result<Arc<OwnedBatch>, AllocError>
    requires there { AreThere bytes }
    requires keeps { KeepsBatch (bytes_in bytes) head entries.items }
    ensures { IfOk result (λ batch. arc_value batch ≡ bytes_in bytes) }
{
    let amendments = sorted_amendments(alloc, &entries, head.count)?;
    let latest = latest_start(&entries);
    let batch = OwnedBatch {
        bytes,
        head,
        entries,
        amendments,
        latest,
    };
    match Arc::new(alloc, batch) {
        Ok(shared) => Ok(shared),
        Err(_) => Err(AllocError),
    }
}

/// What comes of bytes for which there is no memory: their fault, if they are no batch.
fn unkept_offer(bytes: &[u8]) -> Result<Offer, AllocError>
    ensures answer { IfOk result (IsOfferOf bytes.now) }
    ensures want { IfErr result (λ _. batch_in bytes.now ≡ Ok (batch_of bytes.now)) }
{
    match check_batch(bytes) {
        Ok(_) => Err(AllocError),
        Err(fault) => Ok(Offer::Bad(fault)),
    }
}

/// What comes of bytes of which this was kept.
fn offer_of(
    alloc: Global,
    bytes: BatchBytes,
    kept: Result<(Head, Vec<PackedEntry>), Unkept>,
) -> Result<Offer, AllocError>
    requires there { AreThere bytes }
    requires kept { MatchResult kept
        (λ kept. KeepsBatch (bytes_in bytes) kept.0 kept.1.items)
        (λ why. IfFault why (λ fault. batch_in (bytes_in bytes) ≡ Err fault)) }
    ensures answer { IfOk result (IsOfferOf (bytes_in bytes)) }
    ensures want { IfErr result (λ _. batch_in (bytes_in bytes) ≡ Ok (batch_of (bytes_in bytes))) }
{
    match kept {
        Ok((head, entries)) => match keep_parts(alloc, bytes, head, entries) {
            Ok(batch) => Ok(Offer::Good(batch)),
            Err(error) => Err(error),
        },
        Err(Unkept::Fault(fault)) => Ok(Offer::Bad(fault)),
        Err(Unkept::NoMemory) => unkept_offer(bytes.as_slice()),
    }
}

impl Offer {
    /// The offer of these bytes: the batch that they are, or their first fault.
    ///
    /// An error is an allocation failure. It comes only of bytes that are a batch, and they are lost.
    pub fn read(alloc: Global, bytes: Vec<u8>) -> Result<Offer, AllocError>
        ensures answer { IfOk result (IsOfferOf bytes.items) }
        ensures want { IfErr result (λ _. batch_in bytes.items ≡ Ok (batch_of bytes.items)) }
    {
        let kept = keep_batch(alloc, &bytes);
        offer_of(alloc, BatchBytes::Own(bytes), kept)
    }

    /// As `read`, but an allocation failure returns the bytes. They are copied once.
    pub fn read_or_back(alloc: Global, bytes: Vec<u8>) -> Result<Offer, AllocFailed<Vec<u8>>>
        ensures answer { IfOk result (IsOfferOf bytes.items) }
        ensures back { IfErr result (λ refused. refused.value.items ≡ bytes.items) }
        ensures want { IfErr result (λ _. batch_in bytes.items ≡ Ok (batch_of bytes.items)) }
    {
        let offer = match Vec::from_slice(alloc, &bytes) {
            Ok(copied) => Offer::read(alloc, copied),
            Err(_) => unkept_offer(&bytes),
        };
        match offer {
            Ok(offer) => Ok(offer),
            Err(_) => Err(AllocFailed { value: bytes }),
        }
    }

    /// As `read`, of the bytes of a text from one place to before another. The batch keeps the text, and no copy of its
    /// bytes, so that a text of many batches stands in memory once, for as long as one of them is kept.
    pub fn read_within(
        alloc: Global,
        text: &Arc<Vec<u8>>,
        from: usize,
        to: usize,
    ) -> Result<Offer, AllocError>
        requires order { from ≤ to }
        requires within { to ≤ length (arc_value text.now).items }
        ensures answer { IfOk result (IsOfferOf (slice_range (arc_value text.now).items from to)) }
        ensures want { IfErr result (λ _. batch_in (slice_range (arc_value text.now).items from to)
            ≡ Ok (batch_of (slice_range (arc_value text.now).items from to))) }
    {
        let bytes = &text[from..to];
        let Ok(shared) = Arc::try_clone(text) else {
            return unkept_offer(bytes);
        };
        let kept = keep_batch(alloc, bytes);
        let own = BatchBytes::Within {
            text: shared,
            from,
            to,
        };
        offer_of(alloc, own, kept)
    }

    /// The batch that stands first in a text, as `read` offers it, and its length in bytes: its head line and the lines
    /// that this counts. What stands after them is not looked at. `None` where no head line comes first, fewer lines
    /// follow, or all together have more than 65,536 bytes. An error is an allocation failure, and comes only of a
    /// batch.
    pub fn read_first(alloc: Global, text: &[u8]) -> Result<Option<(Offer, u32)>, AllocError>
        ensures answer { IfOk result (λ answer. MatchOption answer
            (extent_in text.now ≡ None)
            (λ first. (extent_in text.now ≡ Some first.1)
            × IsOfferOf (take first.1 text.now) first.0)) }
        ensures want { IfErr result
            (λ _. (n : ℕ) × (extent_in text.now ≡ Some n)
            × (batch_in (take n text.now) ≡ Ok (batch_of (take n text.now)))) }
    {
        let Some((head, length)) = first_batch(text) else {
            return Ok(None);
        };
        let first = &text[..length as usize];
        let Ok(bytes) = Vec::from_slice(alloc, first) else {
            return match check_batch(first) {
                Ok(_) => Err(AllocError),
                Err(fault) => Ok(Some((Offer::Bad(fault), length))),
            };
        };
        let kept = keep_below(alloc, &bytes, head);
        match offer_of(alloc, BatchBytes::Own(bytes), kept) {
            Ok(offer) => Ok(Some((offer, length))),
            Err(_) => Err(AllocError),
        }
    }
}
