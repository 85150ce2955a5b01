//! Lines of what a source gives.

ghost use Rattle.std.specs.Prelude.{◌≡◌, ◌+◌, ◌<◌, ◌≤◌, ◌⊎◌, ℕ, [], length, drop, true, false, Ok, IfErr, IfOk, OnErr, MatchOption};
ghost use Rattle.std.specs.Io.KnownBytes.{IsAtEnd};
ghost use Rattle.metering_model.specs.Limits.{most_transcript_bytes};
ghost use Rattle.metering_model.specs.Batch.{lacks};
ghost use Rattle.metering_model.specs.BatchReading.{lines_in};
ghost use Rattle.line_source.specs.Calls.{ReadsWithin};
ghost use Rattle.line_source.specs.Inner.Wants.{IsLineShort};
ghost use Rattle.line_source.specs.Lines.{AreBetween, AreFewer, AreInFront, AreShort, IsFound, IsLineAt, IsShareOf};
ghost use Rattle.line_source.specs.Reading.{IsEnded, ReadsUpTo, ReadsWhile, StopsShort, Takes, TakesLine, TakesPart, TakesWhile};

use crate::faults::SourceFault;
use crate::unread::Unread;
use byte_text::find_byte;
use counted_io::Source;

/// What came of lines that are looked for within so many bytes.
#[derive(Clone, Copy, Debug, PartialEq, Eq)]
pub enum Found {
    /// They are ahead, and end at that place.
    Lines(usize),
    /// No more comes, and fewer are ahead.
    Fewer,
    /// Fewer are ahead, and more bytes than those: no more is read.
    CutOff,
}

/// Where the first line of a text ends, at its line feed.
fn first_feed(text: &[u8]) -> Option<usize>
    ensures { MatchOption result (lacks 10 text.now ≡ true) (IsLineAt text.now) }
{
    find_byte(text, b'\n')
}

/// Reads until the line ends that begins behind the first bytes ahead, so many, and returns how long it is: None where no
/// more comes, or more than the most bytes are ahead. However often more is read, only what is new is searched.
fn line_length<S: Source>(
    unread: &mut Unread,
    source: &mut S,
    from: usize,
    most: usize,
) -> Result<Option<usize>, SourceFault>
    requires read { unread.old.read ≤ most_transcript_bytes }
    requires from { from ≤ length unread.old.bytes }
    ensures takes { Takes unread.old.bytes unread.new.bytes unread.old.read unread.new.read
        (S.remaining source.old) (S.remaining source.new) [] }
    ensures found { IfOk result (λ found. MatchOption found
        ((lacks 10 (drop from unread.new.bytes) ≡ true)
        × (IsAtEnd (S.remaining source.new) ⊎ (most < length unread.new.bytes)))
        (IsLineAt (drop from unread.new.bytes))) }
    ensures block { ReadsUpTo most unread.old.bytes unread.new.bytes }
    ensures last { ReadsWhile (IsLineShort from most) unread.old.bytes unread.new.bytes }
    ensures stopped { IfErr result (StopsShort (IsLineShort from most)
        unread.old.bytes unread.new.bytes) }
    ensures reads { ReadsWithin result unread.new.read (S.failed_calls source.old)
        (S.failed_calls source.new) }
{
    let mut scanned = 0;
    loop {
        let (_, fresh) = unread.ahead()[from..].split_at(scanned);
        if let Some(length) = first_feed(fresh) {
            return Ok(Some(scanned + length));
        }
        let length = unread.ahead().len();
        if length > most {
            return Ok(None);
        }
        scanned = length - from;
        let is_more = unread.fill(source)?;
        if !is_more {
            return Ok(None);
        }
    }
}

/// Reads until a line feed is ahead, and returns where the first one stands: None where no more comes.
pub fn line_end<S: Source>(
    unread: &mut Unread,
    source: &mut S,
) -> Result<Option<usize>, SourceFault>
    requires { unread.old.read ≤ most_transcript_bytes }
    ensures takes { Takes unread.old.bytes unread.new.bytes unread.old.read unread.new.read
        (S.remaining source.old) (S.remaining source.new) [] }
    ensures found { IfOk result (λ found. MatchOption found
        (IsEnded unread.new.bytes (S.remaining source.new)) (IsLineAt unread.new.bytes)) }
    ensures last { ReadsWhile (λ held. lacks 10 held ≡ true) unread.old.bytes unread.new.bytes }
    ensures stopped { IfErr result (StopsShort (λ held. lacks 10 held ≡ true)
        unread.old.bytes unread.new.bytes) }
    ensures reads { ReadsWithin result unread.new.read (S.failed_calls source.old)
        (S.failed_calls source.new) }
{
    let found = line_length(unread, source, 0, usize::MAX)?;
    // For the proof alone: a slice ends within a usize.
    let _ahead = unread.ahead();
    Ok(found)
}

/// Reads until so many whole lines are ahead after the first bytes, or more than the most bytes are ahead in all: then no more
/// is read. A line without end takes no more room than these and a block.
pub fn lines_end_within<S: Source>(
    unread: &mut Unread,
    source: &mut S,
    from: usize,
    count: u64,
    most: usize,
) -> Result<Found, SourceFault>
    requires read { unread.old.read ≤ most_transcript_bytes }
    requires from { from ≤ length unread.old.bytes }
    ensures takes { Takes unread.old.bytes unread.new.bytes unread.old.read unread.new.read
        (S.remaining source.old) (S.remaining source.new) [] }
    ensures found { IfOk result (IsFound from count most
        unread.new.bytes (S.remaining source.new)) }
    ensures block { ReadsUpTo most unread.old.bytes unread.new.bytes }
    ensures last { ReadsWhile (AreShort from count most) unread.old.bytes unread.new.bytes }
    ensures stopped { IfErr result (StopsShort (AreShort from count most)
        unread.old.bytes unread.new.bytes) }
    ensures reads { ReadsWithin result unread.new.read (S.failed_calls source.old)
        (S.failed_calls source.new) }
{
    let mut end = from;
    let mut passed = 0;
    while passed < count {
        let Some(length) = line_length(unread, source, end, most)? else {
            if unread.ahead().len() > most {
                return Ok(Found::CutOff);
            }
            return Ok(Found::Fewer);
        };
        // For the proof alone: a slice ends within a usize.
        let _ahead = unread.ahead();
        end += length + 1;
        passed += 1;
    }
    Ok(Found::Lines(end))
}

/// Reads until so many whole lines are ahead after the first bytes, and returns how many bytes these and the lines have
/// together: None where no more comes, and fewer lines are there.
pub fn lines_end<S: Source>(
    unread: &mut Unread,
    source: &mut S,
    from: usize,
    count: u64,
) -> Result<Option<usize>, SourceFault>
    requires read { unread.old.read ≤ most_transcript_bytes }
    requires from { from ≤ length unread.old.bytes }
    ensures takes { Takes unread.old.bytes unread.new.bytes unread.old.read unread.new.read
        (S.remaining source.old) (S.remaining source.new) [] }
    ensures found { IfOk result (λ found. MatchOption found
        (AreFewer from count unread.new.bytes (S.remaining source.new))
        (λ end. AreBetween from end unread.new.bytes count)) }
    ensures last { ReadsWhile (λ held. length (lines_in (drop from held)).lines < count)
        unread.old.bytes unread.new.bytes }
    ensures stopped { IfErr result (StopsShort
        (λ held. length (lines_in (drop from held)).lines < count)
        unread.old.bytes unread.new.bytes) }
    ensures reads { ReadsWithin result unread.new.read (S.failed_calls source.old)
        (S.failed_calls source.new) }
{
    let found = lines_end_within(unread, source, from, count, usize::MAX)?;
    // No slice has more bytes than a usize, so nothing is cut off.
    let _ahead = unread.ahead();
    match found {
        Found::Lines(end) => Ok(Some(end)),
        Found::Fewer | Found::CutOff => Ok(None),
    }
}

/// Reads until so many bytes are ahead, and returns whether they are: where not, no more come.
pub fn read_ahead<S: Source>(
    wanted: usize,
    unread: &mut Unread,
    source: &mut S,
) -> Result<bool, SourceFault>
    requires { unread.old.read ≤ most_transcript_bytes }
    ensures takes { Takes unread.old.bytes unread.new.bytes unread.old.read unread.new.read
        (S.remaining source.old) (S.remaining source.new) [] }
    ensures enough { result ≡ Ok true → wanted ≤ length unread.new.bytes }
    ensures ended { result ≡ Ok false → (length unread.new.bytes < wanted)
        × IsAtEnd (S.remaining source.new) }
    ensures last { ReadsWhile (λ held. length held < wanted) unread.old.bytes unread.new.bytes }
    ensures stopped { IfErr result (StopsShort (λ held. length held < wanted)
        unread.old.bytes unread.new.bytes) }
    ensures reads { ReadsWithin result unread.new.read (S.failed_calls source.old)
        (S.failed_calls source.new) }
{
    while unread.ahead().len() < wanted {
        let is_more = unread.fill(source)?;
        if !is_more {
            return Ok(false);
        }
    }
    Ok(true)
}

/// Takes the line that is ahead, or all that is where no line ends there. It answers whether one does.
fn take_part(unread: &mut Unread) -> bool
    ensures line { result ≡ true → (end : ℕ) × IsLineAt unread.old.bytes end
        × (unread.new.bytes ≡ drop (end + 1) unread.old.bytes) }
    ensures part { result ≡ false → (lacks 10 unread.old.bytes ≡ true) × (unread.new.bytes ≡ []) }
    ensures read { unread.new.read ≡ unread.old.read }
{
    let length = unread.ahead().len();
    match first_feed(unread.ahead()) {
        Some(end) => {
            unread.take(end + 1);
            true
        }
        None => {
            unread.take(length);
            false
        }
    }
}

/// Takes a line and its line feed, block by block, so that a long line takes no more room than a short one. It answers
/// whether the line ended.
pub fn pass_line<S: Source>(unread: &mut Unread, source: &mut S) -> Result<bool, SourceFault>
    requires { unread.old.read ≤ most_transcript_bytes }
    ensures takes { TakesWhile (λ held. lacks 10 held ≡ true)
        unread.old.bytes unread.new.bytes unread.old.read unread.new.read
        (S.remaining source.old) (S.remaining source.new) }
    ensures line { result ≡ Ok true
        → TakesLine unread.old.bytes unread.new.bytes unread.old.read unread.new.read
        (S.remaining source.old) (S.remaining source.new) }
    ensures ended { result ≡ Ok false
        → TakesPart unread.old.bytes [] unread.old.read unread.new.read
        (S.remaining source.old) (S.remaining source.new) × IsAtEnd (S.remaining source.new) }
    ensures all { result ≡ Ok false → unread.new.bytes ≡ [] }
    ensures stopped { OnErr result (TakesPart unread.old.bytes unread.new.bytes
        unread.old.read unread.new.read (S.remaining source.old) (S.remaining source.new)) }
    ensures reads { ReadsWithin result unread.new.read (S.failed_calls source.old)
        (S.failed_calls source.new) }
{
    loop {
        if take_part(unread) {
            return Ok(true);
        }
        let is_more = unread.fill(source)?;
        if !is_more {
            return Ok(false);
        }
    }
}

/// How many bytes the lines at the beginning of a text have, at most so many lines, and how many these are: all of
/// them, where the text has no more.
pub fn lines_in_front(text: &[u8], most: u64) -> (usize, u64)
    ensures lines { AreInFront text.now result.1 result.0 }
    ensures share { IsShareOf most text.now result.1 }
    ensures all { result.1 < most → lacks 10 (drop result.0 text.now) ≡ true }
{
    let mut at = 0;
    let mut count = 0;
    while count < most {
        let (_, rest) = text.split_at(at);
        let Some(length) = first_feed(rest) else {
            return (at, count);
        };
        at += length + 1;
        count += 1;
    }
    (at, count)
}
