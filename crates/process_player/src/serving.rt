//! A process is asked, and answers, command by command.

ghost use Rattle.std.specs.Prelude.{◌≡◌, ◌≢◌, ◌<◌, ◌≤◌, ◌⊎◌, [], length, Ok, Err, IfErr, OnOk, IfOk, IfSome, MatchOption, false, true};
ghost use Rattle.std.specs.Io.KnownBytes.{Appends, IsAtEnd};
ghost use Rattle.metering_model.specs.Limits.{most_transcript_bytes};
ghost use Rattle.counted_io.specs.Counts.{count_after};
ghost use Rattle.counted_io.specs.Writing.{AppendsPrefix};
ghost use Rattle.process_text.specs.Answers.{Answers, begun_text};
ghost use Rattle.process_player.specs.declared.faults.ProcessFault.{ProcessFault};
ghost use Rattle.process_player.specs.Faults.{FailsAsTold, IsRefusal, tells_of_writer};
ghost use Rattle.process_player.specs.Refusals.{Rejects};
ghost use Rattle.process_player.specs.Runs.{RunsToEnd, RunsTorn, RunsWhole, StaysUnbegun};
ghost use Rattle.process_player.specs.Inner.Calls.{IsLong, IsOfReading, IsOfServing, Reads, ReadsAndWrites};
ghost use Rattle.process_player.specs.Inner.Reading.{Continues, ContinuesWhole, ContinuesWithin, EndsHere, IsCommandAt, IsTorn, Passes, ServesOne, StopsBefore, StopsWithin};

use crate::beginning::begin;
use crate::faults::ProcessFault;
use crate::heads::ProcessKind;
use counted_io::{Sink, Source};
use line_source::{Unread, lines_end};
use process_text::{AnswerText, Process};
use std::alloc::Global;

/// No process is asked more often: a number that no process lives to see, since each call returns.
const MOST_COMMANDS: u64 = 9_223_372_036_854_775_808;

/// Makes the text what the process answers to what is ahead, of which a line ends at the one place and what belongs to it at
/// the other; and writes it.
fn answer<W: Sink>(
    alloc: Global,
    process: &mut Process,
    line: &[u8],
    below: &[u8],
    said: &mut AnswerText,
    writer: &mut W,
) -> Result<(), ProcessFault>
    ensures answered { OnOk result
        (Answers process.old line.now below.now process.new said.new
        × Appends (W.contents writer.old) (W.contents writer.new) said.new) }
    ensures torn { result ≡ Err ProcessFault.Write
        → Answers process.old line.now below.now process.new said.new
        × AppendsPrefix (W.contents writer.old) (W.contents writer.new) said.new }
    ensures others { IfErr result (λ fault. fault ≢ ProcessFault.Write
        → (fault ≡ ProcessFault.OutOfMemory) × (writer.new ≡ writer.old)) }
    ensures count { W.failed_calls writer.new
        ≡ count_after (tells_of_writer result) (W.failed_calls writer.old) }
{
    let Ok(()) = process.answer(alloc, line, below, said) else {
        return Err(ProcessFault::OutOfMemory);
    };
    match said.write(writer) {
        Ok(()) => Ok(()),
        Err(_) => Err(ProcessFault::Write),
    }
}

/// Reads until a command of the process is ahead, and returns where its first line ends, behind the line feed, and where all of
/// it does: None where the input ends before.
fn next_command<S: Source>(
    process: &Process,
    unread: &mut Unread,
    source: &mut S,
) -> Result<Option<(usize, usize)>, ProcessFault>
    requires read { unread.old.read ≤ most_transcript_bytes }
    requires at_hand { length unread.old.bytes < 65_536 }
    ensures passes { Passes unread.old.bytes unread.new.bytes
        (S.remaining source.old) (S.remaining source.new) [] }
    ensures found { IfOk result (λ found. MatchOption found
        (IsAtEnd (S.remaining source.new) × IsTorn process.now unread.new.bytes)
        (λ ends. IsCommandAt process.now unread.new.bytes ends.0 ends.1)) }
    ensures reads { Reads result unread.new.read (S.failed_calls source.old)
        (S.failed_calls source.new) }
    ensures others { IfErr result
        (IsOfReading (IsLong unread.old.bytes (S.remaining source.old))) }
    ensures failed { IfErr result (λ fault. fault ≡ ProcessFault.Read
        → IsTorn process.now unread.new.bytes) }
{
    unread.mark();
    let Some(end) = lines_end(unread, source, 0, 1)? else {
        return Ok(None);
    };
    let lines = process.lines_below(&unread.ahead()[..end - 1]);
    let Some(all) = lines_end(unread, source, end, u64::from(lines))? else {
        return Ok(None);
    };
    Ok(Some((end, all)))
}

/// Has the process do what it is asked next, writes what it answers, and takes what it was asked. It returns whether it was
/// asked: it isn't where the input ends, also within a command.
fn serve_one<S: Source, W: Sink>(
    alloc: Global,
    process: &mut Process,
    unread: &mut Unread,
    source: &mut S,
    said: &mut AnswerText,
    writer: &mut W,
) -> Result<bool, ProcessFault>
    requires read { unread.old.read ≤ most_transcript_bytes }
    requires at_hand { length unread.old.bytes < 65_536 }
    ensures served { result ≡ Ok true → ServesOne process.old process.new
        unread.old.bytes unread.new.bytes (S.remaining source.old) (S.remaining source.new)
        (W.contents writer.old) (W.contents writer.new) }
    ensures ended { result ≡ Ok false → EndsHere process.old process.new
        unread.old.bytes unread.new.bytes (S.remaining source.old) (S.remaining source.new)
        (W.contents writer.old) (W.contents writer.new) }
    ensures stopped { IfErr result (λ fault. fault ≢ ProcessFault.Write
        → StopsBefore process.old fault
        unread.old.bytes unread.new.bytes (S.remaining source.old) (S.remaining source.new)
        (W.contents writer.old) (W.contents writer.new)) }
    ensures torn { result ≡ Err ProcessFault.Write → StopsWithin process.old
        unread.old.bytes (S.remaining source.old) (S.remaining source.new)
        (W.contents writer.old) (W.contents writer.new) }
    ensures calls { ReadsAndWrites result unread.new.read
        (S.failed_calls source.old) (S.failed_calls source.new)
        (W.failed_calls writer.old) (W.failed_calls writer.new) }
    ensures others { IfErr result
        (IsOfServing (IsLong unread.old.bytes (S.remaining source.old))) }
{
    let Some((end, all)) = next_command(process, unread, source)? else {
        return Ok(false);
    };
    let ahead = unread.ahead();
    answer(
        alloc,
        process,
        &ahead[..end - 1],
        &ahead[end..all],
        said,
        writer,
    )?;
    unread.take(all);
    Ok(true)
}

/// Has the process do all that it is asked, until the input ends.
fn serve<S: Source, W: Sink>(
    alloc: Global,
    process: &mut Process,
    unread: &mut Unread,
    source: &mut S,
    said: &mut AnswerText,
    writer: &mut W,
) -> Result<(), ProcessFault>
    requires read { unread.old.read ≤ most_transcript_bytes }
    requires at_hand { length unread.old.bytes < 65_536 }
    ensures ended { OnOk result (Continues process.old process.new
        unread.old.bytes unread.new.bytes (S.remaining source.old) (S.remaining source.new)
        (W.contents writer.old) (W.contents writer.new)
        × IsAtEnd (S.remaining source.new) × IsTorn process.new unread.new.bytes) }
    ensures stopped { IfErr result (λ fault. fault ≢ ProcessFault.Write
        → ContinuesWhole process.old fault
        unread.old.bytes unread.new.bytes (S.remaining source.old) (S.remaining source.new)
        (W.contents writer.old) (W.contents writer.new)) }
    ensures torn { result ≡ Err ProcessFault.Write → ContinuesWithin process.old unread.old.bytes
        (S.remaining source.old) (S.remaining source.new)
        (W.contents writer.old) (W.contents writer.new) }
    ensures reads { Reads result unread.new.read (S.failed_calls source.old)
        (S.failed_calls source.new) }
    ensures writes { W.failed_calls writer.new
        ≡ count_after (tells_of_writer result) (W.failed_calls writer.old) }
    ensures others { IfErr result
        (IsOfServing (IsLong unread.old.bytes (S.remaining source.old))) }
{
    for _ in 0..MOST_COMMANDS {
        match serve_one(alloc, process, unread, source, said, writer) {
            Ok(is_more) => {
                if !is_more {
                    return Ok(());
                }
            }
            Err(fault) => return Err(fault),
        }
    }
    Err(ProcessFault::TooLong)
}

/// Writes what a process says before it is asked.
fn write_begun<W: Sink>(
    process: &Process,
    said: &mut AnswerText,
    writer: &mut W,
) -> Result<(), ProcessFault>
    ensures written { OnOk result
        (Appends (W.contents writer.old) (W.contents writer.new) (begun_text process.now)) }
    ensures torn { result ≡ Err ProcessFault.Write
        → AppendsPrefix (W.contents writer.old) (W.contents writer.new) (begun_text process.now) }
    ensures others { IfErr result (λ fault. fault ≢ ProcessFault.Write
        → (fault ≡ ProcessFault.OutOfMemory) × (writer.new ≡ writer.old)) }
    ensures count { W.failed_calls writer.new
        ≡ count_after (tells_of_writer result) (W.failed_calls writer.old) }
{
    let Ok(()) = process.put_begun(said) else {
        return Err(ProcessFault::OutOfMemory);
    };
    match said.write(writer) {
        Ok(()) => Ok(()),
        Err(_) => Err(ProcessFault::Write),
    }
}

/// Drops a process beside no other value, for the prover's time alone (docs/DECISIONS.md).
fn drop_process(_process: Process) {}

/// Begins the process that a reader gives first, and has it do all that it is asked after that: a command is done and answered
/// when all of it was read. Up to the issuer there are at most 16,777,216 bytes; what was stored, and a command, has at most
/// 4,294,967,296.
///
/// With Ok the input has ended, perhaps within a command, which is not done then. After `Section`, `Log`, `OtherLog` and
/// `NoJournal`, by which nothing is begun, nothing was written; after each other fault whole answers of first commands were, or
/// nothing, and after `Write` a prefix of one after them. No call of the reader is made before all commands that have come whole are
/// answered.
pub fn process_text<R: Source, W: Sink>(
    alloc: Global,
    kind: ProcessKind,
    reader: &mut R,
    writer: &mut W,
) -> Result<(), ProcessFault>
    // With Ok all was done that the reader gave, and just its answers were written.
    ensures done { OnOk result (RunsToEnd kind (R.remaining reader.old) (R.remaining reader.new)
        (W.contents writer.old) (W.contents writer.new)) }

    // What is refused begins nothing, and at another fault but `Write` whole answers stand, or nothing was begun; after `Read`
    // the answers to all commands that had come whole, or what begins a process had not come whole.
    ensures kept { IfErr result (λ fault. IsRefusal fault → writer.new ≡ writer.old) }
    ensures whole { IfErr result (λ fault. fault ≢ ProcessFault.Write
        → StaysUnbegun kind fault (R.remaining reader.old) (R.remaining reader.new)
        writer.old writer.new
        ⊎ RunsWhole kind fault (R.remaining reader.old) (R.remaining reader.new)
        (W.contents writer.old) (W.contents writer.new)) }

    // After `Write` a prefix of an answer stands behind whole ones.
    ensures torn { result ≡ Err ProcessFault.Write
        → RunsTorn kind (R.remaining reader.old) (R.remaining reader.new)
        (W.contents writer.old) (W.contents writer.new) }

    // Each refusal comes of an input that has what it tells; of `TooLong` no more is said than that a log and commands stand
    // in it that have more bytes together than may be held at once.
    ensures refused { IfErr result (λ fault. IfSome (R.remaining reader.old)
        (λ input. Rejects kind input fault)) }

    // `Read` and `Write` come of one failed call each, and no other call fails.
    ensures calls { FailsAsTold result
        (R.failed_calls reader.old) (R.failed_calls reader.new)
        (W.failed_calls writer.old) (W.failed_calls writer.new) }
{
    let mut unread = Unread::new(alloc);
    let mut process = match begin(alloc, kind, &mut unread, reader) {
        Ok(process) => process,
        Err(fault) => return Err(fault),
    };
    let mut said = AnswerText::new(alloc);
    match write_begun(&process, &mut said, writer) {
        Ok(()) => {
            let ended = serve(alloc, &mut process, &mut unread, reader, &mut said, writer);
            drop_process(process);
            ended
        }
        Err(fault) => {
            drop_process(process);
            Err(fault)
        }
    }
}
