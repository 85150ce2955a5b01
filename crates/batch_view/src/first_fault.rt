//! The first fault of a batch.

ghost use Rattle.std.specs.Prelude.{◌≡◌, ◌≤◌, ◌+◌, length, drop, Err, IsOk, MatchResult};
ghost use Rattle.metering_model.specs.BatchReading.{batch_in, lines_in, records_in};
ghost use Rattle.metering_model.specs.Limits.{most_batch_bytes};
ghost use Rattle.batch_view.specs.Inner.Lines.{lines_from, first_record, BeginsWithHead, IsBehindLines, LendsRecord, IsHeadOf};

use crate::head::{Head, read_head};
use crate::lines::next_line;
use metering_model::{BatchCode, BatchFault, Version};
use record_view::{Record, read_record};

/// A batch has no more bytes than this.
pub(crate) const MOST_BATCH_BYTES: usize = 65_536;

/// The record whose line begins at `from` in a batch of that format, and where the next line begins.
#[inline(always)]
pub(crate) fn record_from(
    version: Version,
    text: &[u8],
    from: u32,
) -> Result<(Record<'_>, u32), BatchCode>
    requires within { from ≤ length text.now }
    requires short { length text.now ≤ most_batch_bytes }
    ensures { MatchResult result
        (λ read. LendsRecord version text.now from read.0 read.1)
        (λ code. first_record version (lines_from text.now from).lines ≡ Err code) }
{
    let Some(span) = next_line(text, from) else {
        return Err(BatchCode::Count);
    };
    match read_record(version, text, span) {
        Ok(record) => Ok((record, span.to + 1)),
        Err(code) => Err(code),
    }
}

/// Reads so many records of that format, the first of them on line 2 and at `from`, and returns where they end.
fn check_records(version: Version, text: &[u8], from: u32, count: u16) -> Result<u32, BatchFault>
    requires behind { IsBehindLines text.now 1 from }
    requires short { length text.now ≤ most_batch_bytes }
    ensures { MatchResult result
        (λ end. IsOk (records_in version 2 count (drop 1 (lines_in text.now).lines))
        × IsBehindLines text.now (count + 1) end)
        (λ fault. records_in version 2 count (drop 1 (lines_in text.now).lines) ≡ Err fault) }
{
    let mut at = from;
    for index in 0..count {
        match record_from(version, text, at) {
            Ok((_, next)) => at = next,
            Err(code) => {
                return Err(BatchFault {
                    code,
                    line: u32::from(index) + 2,
                });
            }
        }
    }
    Ok(at)
}

/// The head of bytes that are not too long for a batch, or their first fault.
pub(crate) fn short_head(bytes: &[u8]) -> Result<Head, BatchFault>
    ensures { MatchResult result
        (λ head. (length bytes.now ≤ most_batch_bytes) × BeginsWithHead bytes.now head)
        (λ fault. batch_in bytes.now ≡ Err fault) }
{
    if bytes.len() > MOST_BATCH_BYTES {
        return Err(BatchFault {
            code: BatchCode::TooLong,
            line: 1,
        });
    }
    read_head(bytes)
}

/// The head of the batch that these bytes are, or their first fault.
pub(crate) fn check_batch(bytes: &[u8]) -> Result<Head, BatchFault>
    ensures { MatchResult result (IsHeadOf bytes.now) (λ fault. batch_in bytes.now ≡ Err fault) }
{
    let head = short_head(bytes)?;
    let end = check_records(head.version, bytes, head.records_from, head.count)?;
    if (end as usize) < bytes.len() {
        return Err(BatchFault {
            code: BatchCode::Count,
            line: u32::from(head.count) + 2,
        });
    }
    Ok(head)
}
