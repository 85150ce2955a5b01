//! A run of the program, from what the process gave to the status that it ends with.

ghost use Rattle.std.specs.Prelude.{◌≡◌, ◌≢◌, ◌+◌, ℕ, List, [], Option, Err, IfOk, IfErr, IfSome, IsErr, OnErr, OnOk, false, is_err, map, string_bytes};
ghost use Rattle.std.specs.Io.KnownBytes.{Appends};
ghost use Rattle.std.specs.IoError.{error_kind};
ghost use Rattle.std.specs.declared.io.ErrorKind.TheVariants.{OutOfMemory as NoMemory};
ghost use Rattle.counted_io.specs.Counts.{count_after};
ghost use Rattle.counted_io.specs.Reading.{ConsumesAtMost};
ghost use Rattle.counted_io.specs.Writing.{AppendsPrefix};
ghost use Rattle.metering_model.specs.Limits.{most_input_bytes, most_transcript_bytes};
ghost use Rattle.input_check.specs.Inputs.{Checks};
ghost use Rattle.threads_player.specs.declared.sizes.Size.{Size};
ghost use Rattle.threads_player.specs.Groups.{IsSize};
ghost use Rattle.command_line.specs.declared.commands.Command.{Command};
ghost use Rattle.command_line.specs.CommandLine.{Asks, takes_input};
ghost use Rattle.command_line.specs.Runs.{AsksFor, Ends, IsChecked, most_read, words_behind_name};
ghost use Rattle.command_line.specs.Inner.Outcomes.{IsEnding, IsSound, Leaves};
ghost use Rattle.command_line.specs.Inner.Faults.{fault_of_schedule, fault_of_sheets};
ghost use Rattle.schedule_writer.specs.Requests.{IsRequest};

use crate::commands::{Command, Kind};
use crate::statuses::{Fault, ending};
use crate::words::{LineFault, command, help};
use counted_io::{Sink, Source, write_all};
use input_check::{InputKind, check_text, check_text_as, play_text, rate_text};
use period_file::{Period, file_text};
use process_player::{ProcessKind, process_text};
use program_input::PlayFault;
use schedule_writer::{Request, WriteFault, check_schedule_input, schedule_text};
use sheet_changes::{Asked, SheetsFault, check_two_sheets, sheets_text};
use std::alloc::Global;
use std::env::Args;
use std::io;
use std::sync::Wait;
use std::thread::Threads;
use threads_player::{Size, threads_text};

// The words behind the program's name. Words that are no text are a bad command line.
fn words(alloc: Global, args: io::Result<Args>) -> Result<Vec<String>, LineFault>
    ensures given { IfOk args (λ all. IfOk result
        (λ words. map string_bytes words.items ≡ words_behind_name all)) }
    ensures not_given { IfErr args (λ error.
        (error_kind error ≡ NoMemory → result ≡ Err LineFault.OutOfMemory)
        × (error_kind error ≢ NoMemory → result ≡ Err LineFault.Line)) }
    ensures memory { IfOk args (λ all. result ≢ Err LineFault.Line) }
{
    match args {
        Ok(args) => match args.skip(1).collect(alloc) {
            Ok(words) => Ok(words),
            Err(_) => Err(LineFault::OutOfMemory),
        },
        Err(error) => match error.kind() {
            io::ErrorKind::OutOfMemory => Err(LineFault::OutOfMemory),
            _ => Err(LineFault::Line),
        },
    }
}

// What is asked for, and the text to show where that is help
#[derive(Drop)]
struct Wanted {
    command: Command,
    help: String,
}

// What the words ask for
fn understood(alloc: Global, words: &[String]) -> Result<Wanted, LineFault>
    ensures asked { IfOk result (λ it. Asks (map string_bytes words.now) it.command) }
    ensures help { IfOk result (λ it. it.command ≡ Command.Help → string_bytes it.help ≢ []) }
    ensures not_asked { result ≡ Err LineFault.Line
        → (command : Command) → ¬ Asks (map string_bytes words.now) command }
{
    let command = command(alloc, words)?;
    let help = match command {
        Command::Help => help(alloc, words)?,
        _ => String::new(alloc),
    };
    Ok(Wanted { command, help })
}

// What the words behind the program's name ask for
fn asked(alloc: Global, args: io::Result<Args>) -> Result<Wanted, LineFault>
    ensures asked { IfOk result (λ it. AsksFor args it.command) }
    ensures help { IfOk result (λ it. it.command ≡ Command.Help → string_bytes it.help ≢ []) }
    ensures not_asked { result ≡ Err LineFault.Line
        → (command : Command) → ¬ AsksFor args command }
    ensures not_given { IfErr args (λ error.
        (error_kind error ≡ NoMemory → result ≡ Err LineFault.OutOfMemory)
        × (error_kind error ≢ NoMemory → result ≡ Err LineFault.Line)) }
{
    match words(alloc, args) {
        Ok(words) => understood(alloc, &words),
        Err(fault) => Err(fault),
    }
}

fn rate<R: Source, W: Sink>(
    alloc: Global,
    period: Period,
    reader: &mut R,
    writer: &mut W,
) -> Result<(), Fault>
    ensures outcome { Leaves W.Sink (Command.Rate period) result
        (R.remaining reader.old) (R.remaining reader.new)
        (R.failed_calls reader.old) (R.failed_calls reader.new) writer.old writer.new }
    ensures read { ConsumesAtMost (most_input_bytes + 1)
        (R.remaining reader.old) (R.remaining reader.new) }
{
    match rate_text(alloc, period, reader, writer) {
        Ok(()) => Ok(()),
        Err(fault) => Err(Fault::Play(fault)),
    }
}

fn play<R: Source, W: Sink>(alloc: Global, reader: &mut R, writer: &mut W) -> Result<(), Fault>
    ensures outcome { Leaves W.Sink Command.Play result
        (R.remaining reader.old) (R.remaining reader.new)
        (R.failed_calls reader.old) (R.failed_calls reader.new) writer.old writer.new }
    ensures read { ConsumesAtMost (most_input_bytes + 1)
        (R.remaining reader.old) (R.remaining reader.new) }
{
    match play_text(alloc, reader, writer) {
        Ok(()) => Ok(()),
        Err(fault) => Err(Fault::Play(fault)),
    }
}

// Writes what is said of an input of this kind, and answers how many lines tell what is refused.
fn say<R: Source, W: Sink>(
    alloc: Global,
    kind: Option<Kind>,
    reader: &mut R,
    writer: &mut W,
) -> Result<u64, PlayFault>
    ensures { Checks (IsChecked kind) result writer.old writer.new
        (R.remaining reader.old) (R.remaining reader.new)
        (W.contents writer.old) (W.contents writer.new)
        (R.failed_calls reader.old) (R.failed_calls reader.new)
        (W.failed_calls writer.old) (W.failed_calls writer.new) }
{
    match kind {
        None => check_text(alloc, reader, writer),
        Some(kind) => match kind {
            Kind::Rate => check_text_as(alloc, InputKind::Rate, reader, writer),
            Kind::Play => check_text_as(alloc, InputKind::Play, reader, writer),
            Kind::Schedule => check_schedule_input(alloc, reader, writer),
            Kind::Sheets => check_two_sheets(alloc, reader, writer),
        },
    }
}

// Where something is wrong, the lines that say so were written, and their number is the fault.
fn check<R: Source, W: Sink>(
    alloc: Global,
    kind: Option<Kind>,
    reader: &mut R,
    writer: &mut W,
) -> Result<(), Fault>
    ensures outcome { Leaves W.Sink (Command.Check kind) result
        (R.remaining reader.old) (R.remaining reader.new)
        (R.failed_calls reader.old) (R.failed_calls reader.new) writer.old writer.new }
    ensures read { ConsumesAtMost (most_input_bytes + 1)
        (R.remaining reader.old) (R.remaining reader.new) }
{
    match say(alloc, kind, reader, writer) {
        Ok(0) => Ok(()),
        Ok(count) => Err(Fault::Faults(count)),
        Err(fault) => Err(Fault::Play(fault)),
    }
}

fn file<R: Source, W: Sink>(
    alloc: Global,
    period: Period,
    reader: &mut R,
    writer: &mut W,
) -> Result<(), Fault>
    ensures outcome { Leaves W.Sink (Command.File period) result
        (R.remaining reader.old) (R.remaining reader.new)
        (R.failed_calls reader.old) (R.failed_calls reader.new) writer.old writer.new }
    ensures read { ConsumesAtMost (most_transcript_bytes + 1)
        (R.remaining reader.old) (R.remaining reader.new) }
{
    match file_text(alloc, period, reader, writer) {
        Ok(()) => Ok(()),
        Err(fault) => Err(Fault::File(fault)),
    }
}

fn fault_of_sheets(fault: SheetsFault) -> Fault
    ensures { result ≡ fault_of_sheets fault }
{
    match fault {
        SheetsFault::Input(fault) => Fault::Play(fault),
        SheetsFault::Unlike => Fault::Unlike,
    }
}

// Where not all stays that is to stay, all was written that is said of the sheets.
fn sheets<R: Source, W: Sink>(
    alloc: Global,
    asked: Asked,
    reader: &mut R,
    writer: &mut W,
) -> Result<(), Fault>
    ensures outcome { Leaves W.Sink (Command.Sheets asked) result
        (R.remaining reader.old) (R.remaining reader.new)
        (R.failed_calls reader.old) (R.failed_calls reader.new) writer.old writer.new }
    ensures read { ConsumesAtMost (most_input_bytes + 1)
        (R.remaining reader.old) (R.remaining reader.new) }
{
    match sheets_text(alloc, asked, reader, writer) {
        Ok(()) => Ok(()),
        Err(fault) => Err(fault_of_sheets(fault)),
    }
}

fn fault_of_schedule(fault: WriteFault) -> Fault
    ensures { result ≡ fault_of_schedule fault }
{
    match fault {
        WriteFault::Read => Fault::Play(PlayFault::Read),
        WriteFault::Refused(told) => Fault::Refused(told),
        WriteFault::TooLong => Fault::TooLong,
        WriteFault::NotClosed => Fault::NotClosed,
        WriteFault::Write => Fault::Play(PlayFault::Write),
        WriteFault::OutOfMemory => Fault::Play(PlayFault::OutOfMemory),
    }
}

fn schedule<R: Source, W: Sink>(
    alloc: Global,
    request: Request,
    reader: &mut R,
    writer: &mut W,
) -> Result<(), Fault>
    requires { IsRequest request }
    ensures outcome { Leaves W.Sink (Command.Schedule request) result
        (R.remaining reader.old) (R.remaining reader.new)
        (R.failed_calls reader.old) (R.failed_calls reader.new) writer.old writer.new }
    ensures read { ConsumesAtMost (most_input_bytes + 1)
        (R.remaining reader.old) (R.remaining reader.new) }
{
    match schedule_text(alloc, request, reader, writer) {
        Ok(()) => Ok(()),
        Err(fault) => Err(fault_of_schedule(fault)),
    }
}

// The process answers as long as the input goes on.
fn process<R: Source, W: Sink>(
    alloc: Global,
    kind: ProcessKind,
    reader: &mut R,
    writer: &mut W,
) -> Result<(), Fault>
    ensures outcome { Leaves W.Sink (Command.Process kind) result
        (R.remaining reader.old) (R.remaining reader.new)
        (R.failed_calls reader.old) (R.failed_calls reader.new) writer.old writer.new }
{
    match process_text(alloc, kind, reader, writer) {
        Ok(()) => Ok(()),
        Err(fault) => Err(Fault::Process(fault)),
    }
}

// The group takes nothing of the input, whatever that is.
fn threads<T: Threads + Wait + Sync, W: Sink>(
    rt: &T,
    alloc: Global,
    size: Size,
    writer: &mut W,
) -> Result<(), Fault>
    requires { IsSize size }
    ensures outcome { (known : Option (List ℕ)) (reads : ℕ)
        → Leaves W.Sink (Command.Threads size) result
        known known reads reads writer.old writer.new }
{
    match threads_text(rt, alloc, size, writer) {
        Ok(()) => Ok(()),
        Err(fault) => Err(Fault::Threads(fault)),
    }
}

// Shows a text, of help or of the version, and takes nothing of the input, whatever that is.
fn show<W: Sink>(text: &[u8], writer: &mut W) -> Result<(), Fault>
    ensures shown { OnOk result (Appends (W.contents writer.old) (W.contents writer.new) text.now) }
    ensures prefix { OnErr result
        (AppendsPrefix (W.contents writer.old) (W.contents writer.new) text.now) }
    ensures fault { IfErr result (λ fault. fault ≡ Fault.Play PlayFault.Write) }
    ensures count { W.failed_calls writer.new
        ≡ count_after (is_err result) (W.failed_calls writer.old) }
{
    match write_all(writer, text) {
        Ok(()) => Ok(()),
        Err(_) => Err(Fault::Play(PlayFault::Write)),
    }
}

// What comes of a command. A group in threads is not run here: its size is the error, and nothing is
// done.
fn outcome<R: Source, W: Sink>(
    alloc: Global,
    wanted: &Wanted,
    reader: &mut R,
    writer: &mut W,
) -> Result<Result<(), Fault>, Size>
    requires sound { IsSound wanted.now.command }
    requires help { wanted.now.command ≡ Command.Help → string_bytes wanted.now.help ≢ [] }
    ensures outcome { IfOk result (λ outcome. Leaves W.Sink wanted.now.command outcome
        (R.remaining reader.old) (R.remaining reader.new)
        (R.failed_calls reader.old) (R.failed_calls reader.new) writer.old writer.new) }
    ensures alone { IfOk result
        (λ outcome. (size : Size) → wanted.now.command ≢ Command.Threads size) }
    ensures threads { IfErr result (λ size. wanted.now.command ≡ Command.Threads size) }
    ensures kept { IsErr result → (reader.new ≡ reader.old) × (writer.new ≡ writer.old) }
    ensures read { IfSome (most_read wanted.now.command)
        (λ most. ConsumesAtMost most (R.remaining reader.old) (R.remaining reader.new)) }
    ensures unread { takes_input wanted.now.command ≡ false → reader.new ≡ reader.old }
{
    match wanted.command {
        Command::Rate { period } => Ok(rate(alloc, period, reader, writer)),
        Command::Play => Ok(play(alloc, reader, writer)),
        Command::Check(kind) => Ok(check(alloc, kind, reader, writer)),
        Command::File { period } => Ok(file(alloc, period, reader, writer)),
        Command::Threads { size } => Err(size),
        Command::Sheets { asked } => Ok(sheets(alloc, asked, reader, writer)),
        Command::Schedule { request } => Ok(schedule(alloc, request, reader, writer)),
        Command::Process { kind } => Ok(process(alloc, kind, reader, writer)),
        Command::Help => Ok(show(wanted.help.as_bytes(), writer)),
        Command::Version => Ok(show(b"focusd 0.3.0\n", writer)),
    }
}

// The status of what came of a command, which is told where it is a fault
fn ended<E: Sink>(outcome: Result<(), Fault>, errors: &mut E) -> u8
    ensures ending { IsEnding E.Sink outcome result errors.old errors.new }
{
    match outcome {
        Ok(()) => 0,
        Err(fault) => ending(&fault, errors),
    }
}

/// Does what the arguments ask for, of which the first is the program's name, but for a group in
/// threads: where they ask for one nothing is done, and its size is the error.
///
/// The status is that of [`run`], and so is what is read, written and reported.
pub fn run_alone<R: Source, W: Sink, E: Sink>(
    alloc: Global,
    args: io::Result<Args>,
    reader: &mut R,
    writer: &mut W,
    errors: &mut E,
) -> Result<u8, Size>
    ensures ended { IfOk result (λ status. Ends R.Source W.Sink E.Sink args status
        reader.old reader.new writer.old writer.new errors.old errors.new) }

    // Threads are asked for, and all that was lent is as it was.
    ensures threads { IfErr result (λ size. AsksFor args (Command.Threads size)) }
    ensures kept { IsErr result
        → (reader.new ≡ reader.old) × (writer.new ≡ writer.old) × (errors.new ≡ errors.old) }

    // Where they are asked for, only out of memory comes before: an allocation failed.
    ensures only_memory { IfOk result (λ status. (size : Size) → AsksFor args (Command.Threads size)
        → status ≡ 4) }
{
    let wanted = match asked(alloc, args) {
        Ok(wanted) => wanted,
        Err(fault) => return Ok(ending(&Fault::Line(fault), errors)),
    };
    match outcome(alloc, &wanted, reader, writer) {
        Ok(outcome) => Ok(ended(outcome, errors)),
        Err(size) => Err(size),
    }
}

/// Does what the arguments ask for, of which the first is the program's name, and answers the status
/// to end with.
///
/// 0 says that it was done, of `check` that nothing is refused, though it may warn, and of a process
/// of a group that its input has ended; 1 that the input is refused, that `check` wrote what is
/// refused of it, that it has no whole file of the period, that not all stays of two sheets that is
/// to stay, that no schedule was found, that the built-in sheet of `threads` is refused, or that its
/// run came to a mismatch; 2 that the words ask for nothing, or are no text; 3 that a read or a
/// write failed; 4 that it is out of memory: an allocation failed.
/// In each case but 0 a line tells of it on `errors`, as far as that takes it. At most 16,777,217
/// bytes are read, by `file` at most 4,294,967,297, by a process as many as come, and none at 2, by
/// `threads`, or for help or the version. What is no group in threads is done by [`run_alone`],
/// which no thread can keep from returning.
pub fn run<T: Threads + Wait + Sync, R: Source, W: Sink, E: Sink>(
    rt: &T,
    alloc: Global,
    args: io::Result<Args>,
    reader: &mut R,
    writer: &mut W,
    errors: &mut E,
) -> u8
    ensures ended { Ends R.Source W.Sink E.Sink args result
        reader.old reader.new writer.old writer.new errors.old errors.new }
{
    match run_alone(alloc, args, reader, writer, errors) {
        Ok(status) => status,
        Err(size) => ended(threads(rt, alloc, size, writer), errors),
    }
}
