//! How far a batch goes in a text that has other bytes after it.

ghost use Rattle.std.specs.Prelude.{◌≡◌, ◌≤◌, length, None, MatchOption};
ghost use Rattle.metering_model.specs.BatchReading.{lines_in};
ghost use Rattle.metering_model.specs.Limits.{most_batch_bytes};
ghost use Rattle.batch_view.specs.Extents.{counted, extent_in};
ghost use Rattle.batch_view.specs.Inner.First.{IsFirstBatch, IsHeadFirst};

use crate::batch::BatchView;
use crate::first_fault::MOST_BATCH_BYTES;
use crate::head::{Head, head_of_line};
use record_view::{Span, find_byte, lines_length};

/// The head line that comes first, if one does.
fn first_head(text: &[u8]) -> Option<Head>
    requires { length text.now ≤ most_batch_bytes }
    ensures { MatchOption result (counted (lines_in text.now).lines ≡ None) (IsHeadFirst text.now) }
{
    let feed = find_byte(text, b'\n')?;
    let line = Span {
        from: 0,
        to: feed as u32,
    };
    head_of_line(text, line)
}

/// The head of the batch that comes first, and how far it goes. The head line is read once.
pub(crate) fn first_batch(text: &[u8]) -> Option<(Head, u32)>
    ensures { MatchOption result (extent_in text.now ≡ None)
        (λ first. IsFirstBatch text.now first.0 first.1) }
{
    let front = &text[..text.len().min(MOST_BATCH_BYTES)];
    let head = first_head(front)?;
    let records = lines_length(&front[head.records_from as usize..], u32::from(head.count))?;
    Some((head, head.records_from + records as u32))
}

impl<'a> BatchView<'a> {
    /// The length in bytes of the head line that the bytes begin with and of the lines that it counts. Whether these
    /// are a batch is not looked at.
    ///
    /// `None` where no head line comes first, fewer lines follow, or all together have more than 65,536 bytes.
    pub fn extent(bytes: &[u8]) -> Option<u32>
        ensures { result ≡ extent_in bytes.now }
    {
        match first_batch(bytes) {
            Some((_, length)) => Some(length),
            None => None,
        }
    }
}
