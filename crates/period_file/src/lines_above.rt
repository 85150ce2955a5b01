//! The line above a file, and the number of lines that it says.

ghost use Rattle.std.specs.Prelude.{◌≡◌, ◌≤◌, ℕ, List, Option, Some, None, Ok};
ghost use Rattle.metering_model.specs.Limits.{most_transcript_bytes};
ghost use Rattle.transcript_laws.specs.FirstFiles.{told_behind, words_above};
ghost use Rattle.line_source.specs.Calls.{ReadsWithin};
ghost use Rattle.line_source.specs.Reading.{Takes};
ghost use Rattle.period_file.specs.Inner.Reading.{EndsUntold, IsTold, TakesTold};

use byte_text::{Line, is_same, is_whole_part, whole_up_to};
use counted_io::Source;
use line_source::{SourceFault, Unread, line_end, pass_line, read_ahead};
use period_cut::Period;

/// More lines than any input has: a greater number is told as this one.
const TOO_MANY: u64 = 4_294_967_297;

/// The words of the line above a file of the period, up to the number of its lines.
pub(crate) fn words_above(period: Period) -> Line
    ensures { result ≡ words_above period }
{
    let mut words = Line::new();
    words.put(b"exported period ");
    words.put_number(u32::from(period.number()));
    words.put(b" lines ");
    words
}

/// The number that a line tells after these words, where it begins with them and a number is all that follows.
pub(crate) fn told_behind(words: &[u8], line: &[u8]) -> Option<u64>
    ensures { IsTold result (told_behind words.now line.now) }
{
    if line.len() < words.len() {
        return None;
    }
    let (prefix, number) = line.split_at(words.len());
    if is_same(prefix, words) && is_whole_part(number) {
        Some(whole_up_to(number, TOO_MANY).unwrap_or(TOO_MANY))
    } else {
        None
    }
}

/// Takes the next line, and returns what it tells after these words: None where no line is left that could tell
/// something. Only a line that begins with them is kept until it ends.
pub(crate) fn next_told<S: Source>(
    words: &[u8],
    unread: &mut Unread,
    source: &mut S,
) -> Result<Option<Option<u64>>, SourceFault>
    requires { unread.old.read ≤ most_transcript_bytes }
    ensures takes { (taken : List ℕ)
        × Takes unread.old.bytes unread.new.bytes unread.old.read unread.new.read
        (S.remaining source.old) (S.remaining source.new) taken }
    ensures told { (told : Option ℕ) → result ≡ Ok (Some told) → TakesTold words.now told
        unread.old.bytes unread.new.bytes unread.old.read unread.new.read
        (S.remaining source.old) (S.remaining source.new) }
    ensures none { (period : ℕ) → words.now ≡ words_above period → result ≡ Ok None
        → EndsUntold period unread.old.bytes unread.old.read unread.new.read
        (S.remaining source.old) (S.remaining source.new) }
    ensures reads { ReadsWithin result unread.new.read (S.failed_calls source.old)
        (S.failed_calls source.new) }
{
    if !read_ahead(words.len(), unread, source)? {
        return Ok(None);
    }
    if is_same(&unread.ahead()[..words.len()], words) {
        let Some(end) = line_end(unread, source)? else {
            return Ok(None);
        };
        let told = told_behind(words, &unread.ahead()[..end]);
        unread.take(end + 1);
        return Ok(Some(told));
    }
    if pass_line(unread, source)? {
        Ok(Some(None))
    } else {
        Ok(None)
    }
}
