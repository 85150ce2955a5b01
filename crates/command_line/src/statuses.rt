//! How the program ends at a fault: its exit status, and its line on standard error.

ghost use Rattle.std.specs.Prelude.{◌≡◌, ◌+◌, ◌≤◌, ◌++◌, OnErr, OnOk, is_err, length};
ghost use Rattle.std.specs.Io.KnownBytes.{Appends};
ghost use Rattle.counted_io.specs.Counts.{count_after};
ghost use Rattle.counted_io.specs.Writing.{AppendsPrefix};
ghost use Rattle.command_line.specs.Endings.{Tells, log_code_text, process_message, status_of};
ghost use Rattle.command_line.specs.Inner.Parts.{end_part, first_part, first_words, told_part};

use crate::words::LineFault;
use answer_words::{Line, put_section, refusal_line};
use counted_io::{Failed, Sink, write_all};
use period_file::FileFault;
use process_player::{LogCode, ProcessFault};
use program_input::{PlayFault, ScheduleCode, ScheduleFault};
use threads_player::ThreadsFault;

/// Why the program did not do what it is asked for.
#[derive(Drop)]
pub enum Fault {
    /// The command line.
    Line(LineFault),
    /// `rate` or `play`, the sections of `sheets`; of any but `file`, `threads`, `node` and `agent` also a
    /// device, or out of memory: an allocation failed.
    Play(PlayFault),
    /// `check` wrote so many lines of what is wrong.
    Faults(u64),
    /// `file`.
    File(FileFault),
    /// `threads`.
    Threads(ThreadsFault),
    /// `node` or `agent`.
    Process(ProcessFault),
    /// `sheets` wrote all, and not all stays that is to stay.
    Unlike,
    /// `schedule`: a section is refused, or the journals refuse a batch; in the words of `check`, without
    /// a line feed.
    Refused(Vec<u8>),
    /// `schedule`: it would be longer than a schedule may be.
    TooLong,
    /// `schedule`: what was to be written does not close the months.
    NotClosed,
}

fn status(fault: &Fault) -> u8
    ensures { result ≡ status_of fault.now }
{
    match fault {
        Fault::Play(PlayFault::Refused(_))
        | Fault::Play(PlayFault::Schedule(ScheduleFault::Refused { .. }))
        | Fault::Faults(_)
        | Fault::File(FileFault::NoFile | FileFault::Torn | FileFault::TooLong)
        | Fault::Threads(ThreadsFault::Mismatch | ThreadsFault::Refused)
        | Fault::Process(
            ProcessFault::Section(ScheduleFault::Refused { .. })
            | ProcessFault::Log { .. }
            | ProcessFault::OtherLog
            | ProcessFault::NoJournal
            | ProcessFault::TooLong,
        )
        | Fault::Unlike
        | Fault::Refused(_)
        | Fault::TooLong
        | Fault::NotClosed => 1,
        Fault::Line(LineFault::Line) => 2,
        Fault::Play(PlayFault::Read | PlayFault::Write)
        | Fault::File(FileFault::Read | FileFault::Write)
        | Fault::Threads(ThreadsFault::Write)
        | Fault::Process(ProcessFault::Read | ProcessFault::Write) => 3,
        Fault::Line(LineFault::OutOfMemory)
        | Fault::File(FileFault::OutOfMemory)
        | Fault::Play(PlayFault::OutOfMemory)
        | Fault::Play(PlayFault::Schedule(ScheduleFault::OutOfMemory))
        | Fault::Threads(ThreadsFault::OutOfMemory)
        | Fault::Process(
            ProcessFault::OutOfMemory | ProcessFault::Section(ScheduleFault::OutOfMemory),
        ) => 4,
    }
}

// What is wrong with a line of a log, in a word
fn log_word(code: LogCode) -> &'static [u8]
    ensures word { result.now ≡ log_code_text code }
    ensures short { length result.now ≤ 9 }
{
    match code {
        LogCode::Head => b"head",
        LogCode::Kept => b"kept",
        LogCode::Increment => b"increment",
        LogCode::Torn => b"torn",
        LogCode::TooLong => b"too long",
    }
}

// Appends what is told of a process's fault.
fn put_process(line: &mut Line, fault: ProcessFault)
    requires room { length line.old + 52 ≤ 64 }
    ensures put { line.new ≡ line.old ++ process_message fault }
    ensures room { length line.new ≤ length line.old + 52 }
{
    match fault {
        ProcessFault::Read => line.put(b"read failed"),
        ProcessFault::Section(ScheduleFault::Refused { code, line: at }) => {
            line.put(b"refused ");
            put_section(line, code, at);
        }
        ProcessFault::Log { code, line: at } => {
            line.put(b"refused log: ");
            line.put(log_word(code));
            line.put(b" line ");
            line.put_long_number(at);
        }
        ProcessFault::OtherLog => line.put(b"refused log: of another process"),
        ProcessFault::NoJournal => line.put(b"refused log: no journal of this agent"),
        ProcessFault::TooLong => line.put(b"too long"),
        ProcessFault::Write => line.put(b"write failed"),
        ProcessFault::OutOfMemory | ProcessFault::Section(ScheduleFault::OutOfMemory) => {
            line.put(b"out of memory");
        }
    }
}

// Appends what is told of the fault, but nothing in the words of `check`, for which a line may be too
// short: at most "refused " and the 44 bytes of a refusal.
fn put_message(line: &mut Line, fault: &Fault)
    requires room { length line.old + 52 ≤ 64 }
    ensures put { line.new ≡ line.old ++ first_words fault.now }
    ensures room { length line.new ≤ length line.old + 52 }
{
    match fault {
        Fault::Line(LineFault::Line) => line.put(b"bad command line (see focusd --help)"),
        Fault::Faults(count) => {
            line.put(b"faults ");
            line.put_long_number(*count);
        }
        Fault::File(FileFault::NoFile) => line.put(b"no file"),
        Fault::File(FileFault::Torn) => line.put(b"torn file"),
        Fault::File(FileFault::TooLong) => {
            line.put(b"refused ");
            put_section(line, ScheduleCode::TooLong, 1);
        }
        Fault::Line(LineFault::OutOfMemory)
        | Fault::File(FileFault::OutOfMemory)
        | Fault::Play(PlayFault::OutOfMemory)
        | Fault::Play(PlayFault::Schedule(ScheduleFault::OutOfMemory))
        | Fault::Threads(ThreadsFault::OutOfMemory) => line.put(b"out of memory"),
        Fault::Play(PlayFault::Read) | Fault::File(FileFault::Read) => line.put(b"read failed"),
        Fault::Play(PlayFault::Write)
        | Fault::File(FileFault::Write)
        | Fault::Threads(ThreadsFault::Write) => {
            line.put(b"write failed");
        }
        Fault::Play(PlayFault::Schedule(ScheduleFault::Refused { code, line: at })) => {
            line.put(b"refused ");
            put_section(line, *code, *at);
        }
        Fault::Play(PlayFault::Refused(refusal)) => {
            line.put(b"refused ");
            line.put(refusal_line(*refusal).as_slice());
        }
        Fault::Threads(ThreadsFault::Mismatch) => line.put(b"mismatch"),
        Fault::Threads(ThreadsFault::Refused) => line.put(b"refused"),
        Fault::Process(fault) => put_process(line, *fault),
        Fault::Unlike => line.put(b"unlike"),
        Fault::Refused(_) => {}
        Fault::TooLong => line.put(b"too long"),
        Fault::NotClosed => line.put(b"not closed"),
    }
}

// The line of the fault, but of one in the words of `check` what stands before these
fn line_of(fault: &Fault) -> Line
    ensures { result ≡ first_part fault.now }
{
    let mut line = Line::new();
    line.put(b"focusd: ");
    put_message(&mut line, fault);
    if matches!(fault, Fault::Refused(_)) {
        return line;
    }
    line.put(b"\n");
    line
}

// What stands behind it: nothing, or those words
fn words_of(fault: &Fault) -> &[u8]
    ensures { result.now ≡ told_part fault.now }
{
    match fault {
        Fault::Refused(told) => told,
        _ => b"",
    }
}

// What stands behind those
fn end_of(fault: &Fault) -> &'static [u8]
    ensures { result.now ≡ end_part fault.now }
{
    match fault {
        Fault::Refused(_) => b"\n",
        _ => b"",
    }
}

// Writes one text and then the other.
fn write_both<W: Sink>(first: &[u8], second: &[u8], writer: &mut W) -> Result<(), Failed>
    ensures written { OnOk result
        (Appends (W.contents writer.old) (W.contents writer.new) (first.now ++ second.now)) }
    ensures prefix { OnErr result
        (AppendsPrefix (W.contents writer.old) (W.contents writer.new) (first.now ++ second.now)) }
    ensures count { W.failed_calls writer.new
        ≡ count_after (is_err result) (W.failed_calls writer.old) }
{
    write_all(writer, first)?;
    write_all(writer, second)
}

fn tell<W: Sink>(fault: &Fault, writer: &mut W) -> Result<(), Failed>
    ensures told { Tells W.Sink fault.now writer.old writer.new }
{
    write_all(writer, line_of(fault).as_slice())?;
    write_both(words_of(fault), end_of(fault), writer)
}

/// Writes the line of the fault in one write, or in three where it has the words of `check`, and gives
/// the status to end with: 1 for refused input, a mismatch or sheets that are unlike, 2 for the command
/// line, 3 for a failed read or write, 4 when out of memory: an allocation failed.
///
/// The status is the same where the writer fails. It takes no memory.
pub fn ending<W: Sink>(fault: &Fault, writer: &mut W) -> u8
    ensures status { result ≡ status_of fault.now }
    ensures told { Tells W.Sink fault.now writer.old writer.new }
{
    let _ = tell(fault, writer);
    status(fault)
}
