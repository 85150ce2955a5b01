//! Where the lines of a text stand.

ghost use Rattle.std.specs.Prelude.{◌≤◌, length, MatchOption};
ghost use Rattle.metering_model.specs.Limits.{most_batch_bytes};
ghost use Rattle.batch_view.specs.Inner.Lines.{IsFirstLine, HasNoLine};

use record_view::{Span, find_byte};

/// The line that begins at `from`, without its line feed, or None where none follows.
pub(crate) fn next_line(text: &[u8], from: u32) -> Option<Span>
    requires within { from ≤ length text.now }
    requires short { length text.now ≤ most_batch_bytes }
    ensures { MatchOption result (HasNoLine text.now from) (IsFirstLine text.now from) }
{
    let length = find_byte(&text[from as usize..], b'\n')?;
    Some(Span {
        from,
        to: from + length as u32,
    })
}
