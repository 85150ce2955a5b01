//! A batch is read once, and what is found is kept.

ghost use Rattle.std.specs.Prelude.{◌≡◌, ◌≤◌, length, drop, Err, MatchResult};
ghost use Rattle.metering_model.specs.BatchReading.{batch_in, lines_in, records_in};
ghost use Rattle.metering_model.specs.Limits.{most_batch_bytes};
ghost use Rattle.batch_view.specs.Inner.Lines.{BeginsWithHead, IsBehindLines};
ghost use Rattle.batch_view.specs.Inner.Kept.{IfFault, KeepsEntries, KeepsBatch};

use crate::entries::entry_from;
use crate::first_fault::short_head;
use crate::head::Head;
use crate::packed::PackedEntry;
use metering_model::{BatchCode, BatchFault, Version};
use record_view::StampReader;
use std::alloc::Global;

/// Why nothing is kept.
#[derive(Drop)]
pub(crate) enum Unkept {
    /// The bytes are no batch, for this fault.
    Fault(BatchFault),
    /// There was no memory, whatever the bytes are.
    NoMemory,
}

/// Reads so many records of that format, the first of them on line 2 and at `from`, and returns where they end.
fn keep_entries(
    alloc: Global,
    version: Version,
    text: &[u8],
    from: u32,
    count: u16,
) -> Result<(Vec<PackedEntry>, u32), Unkept>
    requires behind { IsBehindLines text.now 1 from }
    requires short { length text.now ≤ most_batch_bytes }
    ensures { MatchResult result
        (λ kept. KeepsEntries version text.now count kept.1 kept.0.items)
        (λ why. IfFault why (λ fault. records_in version 2 count (drop 1 (lines_in text.now).lines)
        ≡ Err fault)) }
{
    let Ok(mut entries) = Vec::with_capacity(alloc, usize::from(count)) else {
        return Err(Unkept::NoMemory);
    };
    let mut at = from;
    let mut stamps = StampReader::new();
    for index in 0..count {
        match entry_from(version, text, at, &mut stamps) {
            Ok((entry, next)) => {
                if entries.push(entry).is_err() {
                    return Err(Unkept::NoMemory);
                }
                at = next;
            }
            Err(code) => {
                return Err(Unkept::Fault(BatchFault {
                    code,
                    line: u32::from(index) + 2,
                }));
            }
        }
    }
    Ok((entries, at))
}

/// What is kept of the records of bytes that begin with this head, which is handed back where they are a batch.
pub(crate) fn keep_below(
    alloc: Global,
    bytes: &[u8],
    head: Head,
) -> Result<(Head, Vec<PackedEntry>), Unkept>
    requires short { length bytes.now ≤ most_batch_bytes }
    requires begins { BeginsWithHead bytes.now head }
    ensures { MatchResult result
        (λ kept. KeepsBatch bytes.now kept.0 kept.1.items)
        (λ why. IfFault why (λ fault. batch_in bytes.now ≡ Err fault)) }
{
    let (entries, end) = match keep_entries(
        alloc,
        head.version,
        bytes,
        head.records_from,
        head.count,
    ) {
        Ok(kept) => kept,
        Err(why) => return Err(why),
    };
    if (end as usize) < bytes.len() {
        return Err(Unkept::Fault(BatchFault {
            code: BatchCode::Count,
            line: u32::from(head.count) + 2,
        }));
    }
    Ok((head, entries))
}

/// The head of the batch that these bytes are, and what is kept of its records.
pub(crate) fn keep_batch(alloc: Global, bytes: &[u8]) -> Result<(Head, Vec<PackedEntry>), Unkept>
    ensures { MatchResult result
        (λ kept. KeepsBatch bytes.now kept.0 kept.1.items)
        (λ why. IfFault why (λ fault. batch_in bytes.now ≡ Err fault)) }
{
    match short_head(bytes) {
        Ok(head) => keep_below(alloc, bytes, head),
        Err(fault) => Err(Unkept::Fault(fault)),
    }
}
