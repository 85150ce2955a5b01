//! The first file of a period in what a source gives.

ghost use Rattle.std.specs.Prelude.{◌≡◌, ◌+◌, ◌<◌, ◌≤◌, ℕ, List, Some, None, Ok, Err, IfOk, IfErr, IfSome, IsOk, OnOk, OnErr};
ghost use Rattle.std.specs.Io.KnownBytes.{Appends, IsAtEnd};
ghost use Rattle.metering_model.specs.Limits.{most_transcript_bytes};
ghost use Rattle.counted_io.specs.Counts.{count_after};
ghost use Rattle.counted_io.specs.Streams.{UsesStreams};
ghost use Rattle.counted_io.specs.Writing.{AppendsPrefix, AppendsSome};
ghost use Rattle.line_source.specs.Calls.{ReadsWithin};
ghost use Rattle.line_source.specs.Lines.{IsShareOf};
ghost use Rattle.line_source.specs.Reading.{IsEnded, Takes};
ghost use Rattle.period_file.specs.Faults.{tells_of_reader, tells_of_writer};
ghost use Rattle.period_file.specs.Files.{IsFileOf, IsRefusal, WritesAtFault, file_in};
ghost use Rattle.period_file.specs.Inner.Calls.{CopiesWithin};
ghost use Rattle.period_file.specs.Inner.Reading.{Copies, CopiesAhead, EndsUntold, Finds, Stops, StopsAhead};

use crate::faults::FileFault;
use crate::lines_above::{next_told, words_above};
use counted_io::{Sink, Source, write_all};
use line_source::{SourceFault, Unread, line_end, lines_in_front};
use period_cut::Period;
use std::alloc::Global;

/// Takes lines up to the first that stands above a file of the period, and that one too. It answers how many lines that
/// says, or None where there is no such line.
fn find_line_above<S: Source>(
    period: Period,
    unread: &mut Unread,
    source: &mut S,
) -> Result<Option<u64>, SourceFault>
    requires { unread.old.read ≤ most_transcript_bytes }
    ensures found { (count : ℕ) → result ≡ Ok (Some count)
        → Finds period count unread.old.bytes unread.new.bytes unread.old.read unread.new.read
        (S.remaining source.old) (S.remaining source.new) }
    ensures none { result ≡ Ok None
        → EndsUntold period unread.old.bytes unread.old.read unread.new.read
        (S.remaining source.old) (S.remaining source.new) }
    ensures takes { (taken : List ℕ)
        × Takes unread.old.bytes unread.new.bytes unread.old.read unread.new.read
        (S.remaining source.old) (S.remaining source.new) taken }
    ensures reads { ReadsWithin result unread.new.read (S.failed_calls source.old)
        (S.failed_calls source.new) }
{
    let words = words_above(period);
    loop {
        let Some(told) = next_told(words.as_slice(), unread, source)? else {
            return Ok(None);
        };
        if told.is_some() {
            return Ok(told);
        }
    }
}

/// Writes the lines ahead, at most so many, in one write, and takes them. It answers how many they are.
fn copy_ahead<W: Sink>(unread: &mut Unread, writer: &mut W, most: u64) -> Result<u64, FileFault>
    ensures copied { IfOk result (λ count. CopiesAhead count unread.old.bytes unread.new.bytes
        (W.contents writer.old) (W.contents writer.new)) }
    ensures share { IfOk result (IsShareOf most unread.old.bytes) }
    ensures stopped { OnErr result
        (StopsAhead most unread.old.bytes (W.contents writer.old) (W.contents writer.new)) }
    ensures fault { IfErr result (λ fault. fault ≡ FileFault.Write) }
    ensures read { unread.new.read ≡ unread.old.read }
    ensures count { W.failed_calls writer.new
        ≡ count_after (tells_of_writer result) (W.failed_calls writer.old) }
{
    let (length, count) = lines_in_front(unread.ahead(), most);
    let Ok(()) = write_all(writer, &unread.ahead()[..length]) else {
        return Err(FileFault::Write);
    };
    unread.take(length);
    Ok(count)
}

/// Writes the lines that follow, so many, and returns how many lack where fewer follow.
fn copy_lines<S: Source, W: Sink>(
    unread: &mut Unread,
    source: &mut S,
    writer: &mut W,
    count: u64,
) -> Result<u64, FileFault>
    requires { unread.old.read ≤ most_transcript_bytes }
    ensures copied { IfOk result (λ lacking. Copies count lacking unread.old.bytes unread.new.bytes
        unread.old.read unread.new.read (S.remaining source.old) (S.remaining source.new)
        (W.contents writer.old) (W.contents writer.new)) }
    ensures ended { IfOk result
        (λ lacking. 0 < lacking → IsEnded unread.new.bytes (S.remaining source.new)) }
    ensures stopped { OnErr result (Stops AppendsSome count unread.old.bytes
        unread.old.read unread.new.read (S.remaining source.old) (S.remaining source.new)
        (W.contents writer.old) (W.contents writer.new)) }
    ensures short { result ≡ Err FileFault.Write → Stops AppendsPrefix count unread.old.bytes
        unread.old.read unread.new.read (S.remaining source.old) (S.remaining source.new)
        (W.contents writer.old) (W.contents writer.new) }
    ensures calls { CopiesWithin result unread.new.read (S.failed_calls source.old)
        (S.failed_calls source.new) (W.failed_calls writer.old) (W.failed_calls writer.new) }
{
    let mut lacking = count;
    while lacking > 0 {
        let Some(_) = line_end(unread, source)? else {
            return Ok(lacking);
        };
        lacking -= copy_ahead(unread, writer, lacking)?;
    }
    Ok(0)
}

/// Reads all that follows, and drops it.
fn drop_rest<S: Source>(unread: &mut Unread, source: &mut S) -> Result<(), SourceFault>
    requires { unread.old.read ≤ most_transcript_bytes }
    ensures takes { (taken : List ℕ)
        × Takes unread.old.bytes unread.new.bytes unread.old.read unread.new.read
        (S.remaining source.old) (S.remaining source.new) taken }
    ensures end { OnOk result (IsAtEnd (S.remaining source.new)) }
    ensures reads { ReadsWithin result unread.new.read (S.failed_calls source.old)
        (S.failed_calls source.new) }
{
    loop {
        let length = unread.ahead().len();
        unread.take(length);
        let is_more = unread.fill(source)?;
        if !is_more {
            return Ok(());
        }
    }
}

/// Writes the first file of the period in the transcript that a reader gives, and nothing else. After `NoFile` nothing
/// was written: no line stands above such a file. After `Torn`, where fewer lines follow than it says, these were.
/// `TooLong` is an input of more than 4,294,967,296 bytes. After `Write` a prefix of the file was written, and never all
/// of it; after `TooLong` and each other fault a prefix, perhaps none or all of it.
pub fn file_text<R: Source, W: Sink>(
    alloc: Global,
    period: Period,
    reader: &mut R,
    writer: &mut W,
) -> Result<(), FileFault>
    // With Ok just the period's first file was written.
    ensures file { OnOk result
        ((input file : List ℕ) × IsFileOf (R.remaining reader.old) period input file
        × Appends (W.contents writer.old) (W.contents writer.new) file) }

    // Each refusal is that of the input.
    ensures refused { IfErr result (λ fault. IsRefusal fault
        → IfSome (R.remaining reader.old) (λ input. file_in period input ≡ Err fault)) }
    ensures none { result ≡ Err FileFault.NoFile → writer.new ≡ writer.old }

    // Of a torn file all went out that the input has, at each other fault a prefix of that or all, and after `Write` never all.
    ensures stopped { WritesAtFault result (R.remaining reader.old) period
        (W.contents writer.old) (W.contents writer.new) }

    // With Ok nothing is left to read. `Read` and `Write` come of one failed call each, and no other call fails.
    ensures streams { UsesStreams (most_transcript_bytes + 1) (IsOk result)
        (tells_of_reader result) (tells_of_writer result)
        (R.remaining reader.old) (R.remaining reader.new)
        (R.failed_calls reader.old) (R.failed_calls reader.new)
        (W.failed_calls writer.old) (W.failed_calls writer.new) }
{
    let mut unread = Unread::new(alloc);
    let Some(count) = find_line_above(period, &mut unread, reader)? else {
        return Err(FileFault::NoFile);
    };
    let lacking = copy_lines(&mut unread, reader, writer, count)?;
    if lacking > 0 {
        return Err(FileFault::Torn);
    }
    drop_rest(&mut unread, reader)?;
    Ok(())
}
