//! The head line of a batch.

ghost use Rattle.std.specs.Prelude.{◌≡◌, ◌≤◌, ◌+◌, ◌∷◌, [], length, Ok, Err, MatchOption, MatchResult, slice_range};
ghost use Rattle.metering_model.specs.BatchReading.{fields_in, version_in, head_in, batch_in};
ghost use Rattle.metering_model.specs.Limits.{most_batch_bytes};
ghost use Rattle.batch_view.specs.Inner.Lines.{head_line, BeginsWithHead};

use crate::lines::next_line;
use metering_model::{BatchCode, BatchFault, Version};
use record_view::{Span, read_whole, split_at_bar};

/// The format and the numbers of a head line, and where the records begin after it.
#[derive(Clone, Copy)]
pub(crate) struct Head {
    pub(crate) version: Version,
    pub(crate) agent: u8,
    pub(crate) seq: u32,
    pub(crate) count: u16,
    pub(crate) records_from: u32,
}

/// The four fields of a head line.
#[derive(Clone, Copy)]
struct HeadFields<'a> {
    version: &'a [u8],
    agent: &'a [u8],
    seq: &'a [u8],
    count: &'a [u8],
}

/// The fields, if there are just four.
fn head_fields(line: &[u8]) -> Option<HeadFields<'_>>
    ensures { MatchOption result
        (head_in (fields_in line.now) ≡ Err BatchCode.Head)
        (λ f. fields_in line.now ≡ f.version.now ∷ f.agent.now ∷ f.seq.now ∷ f.count.now ∷ []) }
{
    let (version, rest) = split_at_bar(line)?;
    let (agent, rest) = split_at_bar(rest)?;
    let (seq, count) = split_at_bar(rest)?;
    if split_at_bar(count).is_some() {
        return None;
    }
    Some(HeadFields {
        version,
        agent,
        seq,
        count,
    })
}

/// The format that a text names, if it does.
fn read_version(text: &[u8]) -> Option<Version>
    ensures { result ≡ version_in text.now }
{
    match text {
        [b'B', b'1'] => Some(Version::B1),
        [b'B', b'2'] => Some(Version::B2),
        _ => None,
    }
}

/// The head that a line is, if it is one within the limits.
pub(crate) fn head_of_line(text: &[u8], span: Span) -> Option<Head>
    requires ordered { span.from ≤ span.to }
    requires within { span.to ≤ length text.now }
    requires short { length text.now ≤ most_batch_bytes }
    ensures { MatchOption result
        (head_in (fields_in (slice_range text.now span.from span.to)) ≡ Err BatchCode.Head)
        (λ h. (head_in (fields_in (slice_range text.now span.from span.to)) ≡ Ok (head_line h))
        × (h.records_from ≡ span.to + 1)) }
{
    let fields = head_fields(&text[span.from as usize..span.to as usize])?;
    Some(Head {
        version: read_version(fields.version)?,
        agent: read_whole(fields.agent, 1, 64)? as u8,
        seq: read_whole(fields.seq, 1, 1_000_000)?,
        count: read_whole(fields.count, 0, 1_000)? as u16,
        records_from: span.to + 1,
    })
}

/// The head of a text that is not too long, or its first fault.
pub(crate) fn read_head(text: &[u8]) -> Result<Head, BatchFault>
    requires { length text.now ≤ most_batch_bytes }
    ensures { MatchResult result (BeginsWithHead text.now)
        (λ fault. batch_in text.now ≡ Err fault) }
{
    let fault = BatchFault {
        code: BatchCode::Head,
        line: 1,
    };
    let Some(span) = next_line(text, 0) else {
        return Err(fault);
    };
    head_of_line(text, span).ok_or(fault)
}
