//! The words of the command line: what they ask for, and the help that is shown.

ghost use Rattle.std.specs.Prelude.{Bool, ◌≡◌, ◌≢◌, ◌≤◌, ℕ, ℤ, Err, IfOk, IfSome, None, Option, map, string_bytes, []};
ghost use Rattle.clap.specs.Words.{found_of, kind_of, rows_of};
ghost use Rattle.schedule_writer.specs.declared.asked.Request.{Request};
ghost use Rattle.command_line.specs.declared.commands.Command.{Command};
ghost use Rattle.command_line.specs.declared.commands.Kind.{Kind};
ghost use Rattle.sheet_changes.specs.declared.changes.Asked.{Asked};
ghost use Rattle.command_line.specs.CommandLine.{kind_text, Asks, AsksForHelp, GivesAsked, GivesDay, GivesFlag, GivesKind, GivesNumber, GivesPeriod, GivesRequest, GivesSize, GivesThrough, IsNamed};
ghost use Rattle.command_line.specs.Inner.Requests.{IsRequestFor};

use crate::commands::{Command, Kind};
use crate::grammar::grammar;
use clap::ArgMatches;
use clap::error::ErrorKind;
use period_file::Period;
use process_player::ProcessKind;
use schedule_writer::Request;
use sheet_changes::{Asked, Day};
use std::alloc::Global;
use thiserror::Error;
use threads_player::Size;

/// Why the program is not asked for anything.
#[derive(Clone, Copy, Debug, PartialEq, Drop, Error)]
pub enum LineFault {
    /// The words are no command of the program, nor a request for help or its version.
    #[error("bad command line")]
    Line,
    /// Out of memory: an allocation failed.
    #[error("out of memory")]
    OutOfMemory,
}

// What is asked for where the grammar refuses the words: `clap` refuses a request for help, or for
// the version, so that its caller shows it.
fn request_of(error: &clap::Error) -> Result<Command, LineFault>
    ensures request { IfOk result (λ command. IsRequestFor command (kind_of error.now)) }
    ensures line { result ≡ Err LineFault.Line → (kind_of error.now ≢ ErrorKind.OutOfMemory)
        × (kind_of error.now ≢ ErrorKind.DisplayHelp)
        × (kind_of error.now ≢ ErrorKind.DisplayVersion) }
{
    match error.kind() {
        ErrorKind::DisplayHelp => Ok(Command::Help),
        ErrorKind::DisplayVersion => Ok(Command::Version),
        ErrorKind::OutOfMemory => Err(LineFault::OutOfMemory),
        _ => Err(LineFault::Line),
    }
}

// The period that an option gives, where it is one
fn period(matches: &ArgMatches<'_>, option: &str) -> Option<Period>
    ensures given { IfSome result (GivesPeriod (rows_of (found_of matches.now)) option.now) }
    ensures not_given { result ≡ None → (period : ℕ)
        → ¬ GivesPeriod (rows_of (found_of matches.now)) option.now period }
{
    let number = matches.get_one::<u16>(option)?;
    Period::new(number)
}

// The number of an option, where it is one from the one to the other
fn number(matches: &ArgMatches<'_>, option: &str, least: u8, most: u8) -> Option<u8>
    ensures given { IfSome result (λ n. (least ≤ n) × (n ≤ most)
        × GivesNumber (rows_of (found_of matches.now)) option.now n) }
    ensures not_given { result ≡ None → (n : ℕ) → least ≤ n → n ≤ most
        → ¬ GivesNumber (rows_of (found_of matches.now)) option.now n }
{
    let number = matches.get_one::<u8>(option)?;
    if least <= number && number <= most {
        Some(number)
    } else {
        None
    }
}

// The period that the option gives, if it gives one; `None` where its text is no period
fn through(matches: &ArgMatches<'_>) -> Option<Option<u16>>
    ensures given { IfSome result (GivesThrough (rows_of (found_of matches.now))) }
    ensures not_given { result ≡ None → (through : Option ℕ)
        → ¬ GivesThrough (rows_of (found_of matches.now)) through }
{
    if matches.get_str("through").is_none() {
        return Some(None);
    }
    let last = period(matches, "through")?;
    Some(Some(last.number()))
}

// What the options ask of a schedule, where that may be asked
fn request(matches: &ArgMatches<'_>) -> Option<Request>
    ensures given { IfSome result (GivesRequest (rows_of (found_of matches.now))) }
    ensures not_given { result ≡ None → (request : Request)
        → ¬ GivesRequest (rows_of (found_of matches.now)) request }
{
    let nodes = number(matches, "nodes", 1, 99)?;
    let observers = number(matches, "observers", 0, 98)?;
    let through = through(matches)?;
    if u16::from(nodes) + u16::from(observers) > 99 {
        return None;
    }
    Some(Request {
        nodes,
        observers,
        through,
    })
}

// The day that the option gives, if it gives one; `None` where its text is no day
fn day(matches: &ArgMatches<'_>) -> Option<Option<Day>>
    ensures given { IfSome result (GivesDay (rows_of (found_of matches.now))) }
    ensures not_given { result ≡ None → (before : Option ℤ)
        → ¬ GivesDay (rows_of (found_of matches.now)) before }
{
    let Some(text) = matches.get_str("before") else {
        return Some(None);
    };
    let day = Day::read(text.as_bytes())?;
    Some(Some(day))
}

// Whether the flag is given
fn is_given(matches: &ArgMatches<'_>, flag: &str) -> Option<bool>
    ensures given { IfSome result (GivesFlag (rows_of (found_of matches.now)) flag.now) }
    ensures not_given { result ≡ None → (given : Bool)
        → ¬ GivesFlag (rows_of (found_of matches.now)) flag.now given }
{
    matches.get_one::<bool>(flag)
}

// What the options ask of two sheets, where that may be asked
fn asked_of_sheets(matches: &ArgMatches<'_>) -> Option<Asked>
    ensures given { IfSome result (GivesAsked (rows_of (found_of matches.now))) }
    ensures not_given { result ≡ None → (asked : Asked)
        → ¬ GivesAsked (rows_of (found_of matches.now)) asked }
{
    Some(Asked {
        before: day(matches)?,
        all: is_given(matches, "all")?,
    })
}

// The kind of this name
fn kind_of(name: &str) -> Option<Kind>
    ensures is { IfSome result (λ kind. name.now ≡ kind_text kind) }
    ensures is_none { result ≡ None → (kind : Kind) → name.now ≢ kind_text kind }
{
    match name {
        "rate" => Some(Kind::Rate),
        "play" => Some(Kind::Play),
        "schedule" => Some(Kind::Schedule),
        "sheets" => Some(Kind::Sheets),
        _ => None,
    }
}

// The kind that the option gives, if it gives one; `None` where its text is no kind
fn kind(matches: &ArgMatches<'_>) -> Option<Option<Kind>>
    ensures given { IfSome result (GivesKind (rows_of (found_of matches.now))) }
    ensures not_given { result ≡ None → (kind : Option Kind)
        → ¬ GivesKind (rows_of (found_of matches.now)) kind }
{
    let Some(text) = matches.get_str("kind") else {
        return Some(None);
    };
    let kind = kind_of(text)?;
    Some(Some(kind))
}

// The size that the options give, where it is one that is run
fn size(matches: &ArgMatches<'_>) -> Option<Size>
    ensures given { IfSome result (GivesSize (rows_of (found_of matches.now))) }
    ensures not_given { result ≡ None → (size : Size)
        → ¬ GivesSize (rows_of (found_of matches.now)) size }
{
    Some(Size {
        nodes: number(matches, "nodes", 1, 9)?,
        agents: number(matches, "agents", 1, 9)?,
        batches: number(matches, "batches", 1, 99)?,
        periods: number(matches, "periods", 1, 12)?,
    })
}

// What the subcommand of this name asks for with these options
fn named(name: &str, options: &ArgMatches<'_>) -> Option<Command>
    ensures asked { IfSome result (IsNamed name.now (rows_of (found_of options.now))) }
    ensures not_asked { result ≡ None → (command : Command)
        → ¬ IsNamed name.now (rows_of (found_of options.now)) command }
{
    match name {
        "rate" => match period(options, "period") {
            Some(period) => Some(Command::Rate { period }),
            None => None,
        },
        "play" => Some(Command::Play),
        "check" => match kind(options) {
            Some(kind) => Some(Command::Check(kind)),
            None => None,
        },
        "file" => match period(options, "period") {
            Some(period) => Some(Command::File { period }),
            None => None,
        },
        "threads" => match size(options) {
            Some(size) => Some(Command::Threads { size }),
            None => None,
        },
        "sheets" => match asked_of_sheets(options) {
            Some(asked) => Some(Command::Sheets { asked }),
            None => None,
        },
        "schedule" => match request(options) {
            Some(request) => Some(Command::Schedule { request }),
            None => None,
        },
        "node" => Some(Command::Process {
            kind: ProcessKind::Node,
        }),
        "agent" => Some(Command::Process {
            kind: ProcessKind::Agent,
        }),
        _ => None,
    }
}

/// Reads the words after the program's name.
///
/// `Line` says that they ask for nothing, and `OutOfMemory` nothing of them.
pub fn command(alloc: Global, words: &[String]) -> Result<Command, LineFault>
    ensures asked { IfOk result (Asks (map string_bytes words.now)) }
    ensures not_asked { result ≡ Err LineFault.Line
        → (command : Command) → ¬ Asks (map string_bytes words.now) command }
{
    let Ok(grammar) = grammar(alloc, words) else {
        return Err(LineFault::OutOfMemory);
    };
    let matches = match grammar.try_get_matches_from(words) {
        Ok(matches) => matches,
        Err(error) => return request_of(&error),
    };
    let Some((name, options)) = matches.subcommand() else {
        return Err(LineFault::Line);
    };
    match named(name, options) {
        Some(command) => Ok(command),
        None => Err(LineFault::Line),
    }
}

// The error's text, which is never empty: of one that is, some part found no memory.
fn shown(alloc: Global, error: &clap::Error) -> Result<String, LineFault>
    ensures text { IfOk result (λ text. string_bytes text ≢ []) }
    ensures memory { result ≢ Err LineFault.Line }
{
    let Ok(text) = format!(in alloc; "{error}") else {
        return Err(LineFault::OutOfMemory);
    };
    if text.as_str().is_empty() {
        return Err(LineFault::OutOfMemory);
    }
    Ok(text)
}

// The text of a request for help
fn text_of(alloc: Global, error: &clap::Error) -> Result<String, LineFault>
    ensures text { IfOk result (λ text. string_bytes text ≢ []) }
    ensures asked { IfOk result (λ _. kind_of error.now ≡ ErrorKind.DisplayHelp) }
    ensures line { result ≡ Err LineFault.Line → (kind_of error.now ≢ ErrorKind.OutOfMemory)
        × (kind_of error.now ≢ ErrorKind.DisplayHelp) }
{
    match error.kind() {
        ErrorKind::DisplayHelp => shown(alloc, error),
        ErrorKind::OutOfMemory => Err(LineFault::OutOfMemory),
        _ => Err(LineFault::Line),
    }
}

/// The help that the words after the program's name ask for, which is `clap`'s text and not empty.
///
/// With Ok they ask for it; `Line` says that they ask for none, and `OutOfMemory` nothing of them.
pub fn help(alloc: Global, words: &[String]) -> Result<String, LineFault>
    ensures text { IfOk result (λ text. string_bytes text ≢ []) }
    ensures asked { IfOk result (λ _. AsksForHelp (map string_bytes words.now)) }
    ensures not_asked { result ≡ Err LineFault.Line → ¬ AsksForHelp (map string_bytes words.now) }
{
    let Ok(grammar) = grammar(alloc, words) else {
        return Err(LineFault::OutOfMemory);
    };
    match grammar.try_get_matches_from(words) {
        Ok(_) => Err(LineFault::Line),
        Err(error) => text_of(alloc, &error),
    }
}
