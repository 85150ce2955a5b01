//! The grammar of the command line, with the texts of its help.

ghost use Rattle.std.specs.Prelude.{◌≡◌, ◌∷◌, IfOk, List, false, map, string_bytes};
ghost use Rattle.clap.specs.Words.{Text, app_of, new_app, rule_of, with_rule};
ghost use Rattle.clap.specs.declared.builder.command.Command.TheViews.{out-Command};
ghost use Rattle.command_line.specs.CommandLine.{bare_grammar, check_grammar, flag_option, number_option, period_grammar, required, threads_grammar, schedule_grammar, sheets_grammar, text_option};
ghost use Rattle.command_line.specs.Inner.Grammars.{StandsIn, with_one};

use clap::{Arg, ArgAction};
use std::alloc::{AllocError, Global};

// What `--help` shows. `clap` makes the same of all commands, which are not all there.
const HELP: &str =
    "Turns usage records into FOCUS 1.0 cost rows. Input comes on standard input alone

Usage: focusd <COMMAND>

Commands:
  rate      Writes the file of a period of one batch, from an input of at most 16 MiB
  play      Plays a schedule of at most 16 MiB, and writes its transcript
  check     Writes what is refused of an input of at most 16 MiB, and warnings, by lines
  file      Copies the file of a period out of a transcript of at most 4 GiB
  schedule  Writes a schedule that closes the months of batches, from an input of at most 16 MiB
  sheets    Writes what a new price sheet changes of an old one, from an input of at most 16 MiB
  threads   Runs a group in threads, without an input, and writes a report
  node      Runs a node of a group: reads what begins it, then commands, and answers each
  agent     Runs an agent of a group: reads what begins it, then commands, and answers each

Options:
  -h, --help     Print help
  -V, --version  Print version
";

const RATE: &str = "Writes the file of a period of one batch, from an input of at most 16 MiB";

const PLAY: &str = "Plays a schedule of at most 16 MiB, and writes its transcript";

const CHECK: &str = "Writes what is refused of an input of at most 16 MiB, and warnings, by lines";

const CHECK_INPUT: &str = "Input, by its kind:
  rate      a section `sheet n` and its n lines, a section `issuer n` and its n lines, each if it is
            there, and one batch
  play      a schedule, which begins with the line `SCHEDULE 1`
  schedule  sections as for rate, then batches, and lines `close` between them
  sheets    two sections `sheet n` and its n lines: the old sheet, then the new";

const FILE: &str = "Copies the file of a period out of a transcript of at most 4 GiB";

const SCHEDULE: &str =
    "Writes a schedule that closes the months of batches, from an input of at most 16 MiB";

const SHEETS: &str =
    "Writes what a new price sheet changes of an old one, from an input of at most 16 MiB";

const SHEETS_INPUT: &str =
    "Input: two sections `sheet n` and its n lines: the old sheet, then the new";

const NODE: &str = "Runs a node of a group: reads what begins it, then commands, and answers each";

const NODE_INPUT: &str =
    "Input: the line `NODE 1`, the head line of its log, a section `sheet n` and its n lines, a
section `issuer n` and its n lines, and the line `new`, or `log n` and the n lines of its log; then
commands: `packet n` and n lines, `start`, `export p`, `keep`, `give a s`";

const AGENT: &str =
    "Runs an agent of a group: reads what begins it, then commands, and answers each";

const AGENT_INPUT: &str =
    "Input: the line `AGENT 1`, the head line of its log, a section `sheet n` and its n lines, a
section `issuer n` and its n lines, and the line `new`, or `log n` and the n lines of its log; then
commands: `journal n` and n lines, `keep`, `again s`";

const THREADS: &str = "Runs a group in threads, without an input, and writes a report";

// `--NAME VALUE`, which may be left out
fn text_option<'a>(alloc: Global, name: &'a str, help: &'a str) -> Arg<'a>
    ensures rule { rule_of result ≡ text_option name.entry.now }
    ensures local { result.global ≡ false }
{
    Arg::new(alloc, name)
        .long(name)
        .help(help)
        .action(ArgAction::Set)
}

// `--NAME`, which may be left out
fn flag<'a>(alloc: Global, name: &'a str, help: &'a str) -> Arg<'a>
    ensures rule { rule_of result ≡ flag_option name.entry.now }
    ensures local { result.global ≡ false }
{
    Arg::new(alloc, name)
        .long(name)
        .help(help)
        .action(ArgAction::SetTrue)
}

// `--NAME N` with a number from the one to the other, which may be left out
fn number_option<'a>(alloc: Global, name: &'a str, help: &'a str, least: u16, most: u16) -> Arg<'a>
    ensures rule { rule_of result ≡ number_option name.entry.now least most }
    ensures local { result.global ≡ false }
{
    let numbers = clap::value_parser!(u16).range(i64::from(least)..=i64::from(most));
    text_option(alloc, name, help).value_parser(numbers)
}

// A command without options
fn plain_grammar<'a>(alloc: Global, name: &'a str, about: &'a str) -> clap::Command<'a>
    ensures app { app_of result ≡ new_app name.entry.now }
    ensures local { (out-Command result).has_globals ≡ false }
{
    clap::Command::new(alloc, name).about(about)
}

// The same, whose help says behind all else what the input is
fn explained<'a>(alloc: Global, name: &'a str, about: &'a str, input: &'a str) -> clap::Command<'a>
    ensures app { app_of result ≡ new_app name.entry.now }
    ensures local { (out-Command result).has_globals ≡ false }
{
    clap::Command::new(alloc, name)
        .about(about)
        .after_help(input)
}

// A command with one option more
fn taking<'a>(command: clap::Command<'a>, option: Arg<'a>) -> Result<clap::Command<'a>, AllocError>
    requires local { ((out-Command command).has_globals ≡ false) × (option.global ≡ false) }
    ensures app { IfOk result
        (λ c. app_of c ≡ with_rule (app_of command.entry) (rule_of option.entry)) }
    ensures local { IfOk result (λ c. (out-Command c).has_globals ≡ false) }
{
    command.arg(option)
}

// The same with `--NAME N`, a number from 1 to the most, which may not be left out
fn counting<'a>(
    command: clap::Command<'a>,
    alloc: Global,
    name: &'a str,
    help: &'a str,
    most: u16,
) -> Result<clap::Command<'a>, AllocError>
    requires local { (out-Command command).has_globals ≡ false }
    ensures app { IfOk result (λ c. app_of c
        ≡ with_rule (app_of command.entry) (required (number_option name.entry.now 1 most))) }
    ensures local { IfOk result (λ c. (out-Command c).has_globals ≡ false) }
{
    let count = number_option(alloc, name, help, 1, most).required(true);
    taking(command, count)
}

// `rate --period P` or `file --period P`
fn period_grammar<'a>(
    alloc: Global,
    name: &'a str,
    about: &'a str,
) -> Result<clap::Command<'a>, AllocError>
    ensures app { IfOk result (λ c. app_of c ≡ period_grammar name.entry.now) }
    ensures local { IfOk result (λ c. (out-Command c).has_globals ≡ false) }
{
    let period = number_option(
        alloc,
        "period",
        "The billing period, in months from the base of the price sheet: 0 to 1199",
        0,
        1_199,
    )
    .required(true);
    taking(plain_grammar(alloc, name, about), period)
}

// `threads --nodes N --agents A --batches K --periods P`
fn threads_grammar<'a>(alloc: Global) -> Result<clap::Command<'a>, AllocError>
    ensures app { IfOk result (λ c. app_of c ≡ threads_grammar) }
    ensures local { IfOk result (λ c. (out-Command c).has_globals ≡ false) }
{
    let threads = plain_grammar(alloc, "threads", THREADS);
    let Ok(threads) = counting(threads, alloc, "nodes", "How many nodes: 1 to 9", 9) else {
        return Err(AllocError);
    };
    let Ok(threads) = counting(threads, alloc, "agents", "How many agents: 1 to 9", 9) else {
        return Err(AllocError);
    };
    let Ok(threads) = counting(
        threads,
        alloc,
        "batches",
        "How many batches of each agent: 1 to 99",
        99,
    ) else {
        return Err(AllocError);
    };
    counting(threads, alloc, "periods", "How many months: 1 to 12", 12)
}

// `check --kind KIND`
fn check_grammar<'a>(alloc: Global) -> Result<clap::Command<'a>, AllocError>
    ensures app { IfOk result (λ c. app_of c ≡ check_grammar) }
    ensures local { IfOk result (λ c. (out-Command c).has_globals ≡ false) }
{
    let kind = text_option(
        alloc,
        "kind",
        "What the input is for: rate, play, schedule or sheets; left out, its first line decides on rate or play",
    );
    taking(explained(alloc, "check", CHECK, CHECK_INPUT), kind)
}

// `sheets --before DAY --all`
fn sheets_grammar<'a>(alloc: Global) -> Result<clap::Command<'a>, AllocError>
    ensures app { IfOk result (λ c. app_of c ≡ sheets_grammar) }
    ensures local { IfOk result (λ c. (out-Command c).has_globals ≡ false) }
{
    let before = text_option(
        alloc,
        "before",
        "A day, as 2025-04-01: files of months that end before it have to stay",
    );
    let sheets = explained(alloc, "sheets", SHEETS, SHEETS_INPUT);
    let Ok(sheets) = taking(sheets, before) else {
        return Err(AllocError);
    };
    let all = flag(alloc, "all", "Lists each field that differs too");
    taking(sheets, all)
}

// `schedule --nodes N --observers M --through P`
fn schedule_grammar<'a>(alloc: Global) -> Result<clap::Command<'a>, AllocError>
    ensures app { IfOk result (λ c. app_of c ≡ schedule_grammar) }
    ensures local { IfOk result (λ c. (out-Command c).has_globals ≡ false) }
{
    let nodes = number_option(alloc, "nodes", "How many nodes vote: 1 to 99", 1, 99).default_value(
        "3",
    );
    let Ok(schedule) = taking(plain_grammar(alloc, "schedule", SCHEDULE), nodes) else {
        return Err(AllocError);
    };
    let observers = number_option(
        alloc,
        "observers",
        "How many more observe: 0 to 98, at most 99 with those that vote",
        0,
        98,
    )
    .default_value("0");
    let Ok(schedule) = taking(schedule, observers) else {
        return Err(AllocError);
    };
    let through = number_option(
        alloc,
        "through",
        "The last period to close, 0 to 1199, unless a line `close` closes a later one; \
        left out, at least the last in which a reading starts",
        0,
        1_199,
    );
    taking(schedule, through)
}

// Without its commands: `help` is none of them, since `--help` asks for it.
fn bare_grammar<'a>(alloc: Global) -> Result<clap::Command<'a>, AllocError>
    ensures app { IfOk result (λ c. app_of c ≡ bare_grammar) }
{
    let Ok(focusd) = clap::Command::new(alloc, "focusd").bin_name("focusd") else {
        return Err(AllocError);
    };
    Ok(
        focusd
            .override_help(HELP)
            .version("0.3.0")
            .no_binary_name(true)
            .disable_help_subcommand(true)
            .subcommand_required(true),
    )
}

// The command of this name, or `rate`, where none has it: any one serves to refuse what names none
fn named<'a>(alloc: Global, name: &str) -> Result<clap::Command<'a>, AllocError>
    ensures app { IfOk result
        (λ c. (rest : List Text) → StandsIn (with_one (app_of c)) (name.now ∷ rest)) }
    ensures local { IfOk result (λ c. (out-Command c).has_globals ≡ false) }
{
    match name {
        "play" => Ok(plain_grammar(alloc, "play", PLAY)),
        "check" => check_grammar(alloc),
        "file" => period_grammar(alloc, "file", FILE),
        "schedule" => schedule_grammar(alloc),
        "sheets" => sheets_grammar(alloc),
        "threads" => threads_grammar(alloc),
        "node" => Ok(explained(alloc, "node", NODE, NODE_INPUT)),
        "agent" => Ok(explained(alloc, "agent", AGENT, AGENT_INPUT)),
        _ => period_grammar(alloc, "rate", RATE),
    }
}

// The command that these words need
fn needed<'a>(alloc: Global, words: &[String]) -> Result<clap::Command<'a>, AllocError>
    ensures app { IfOk result
        (λ c. StandsIn (with_one (app_of c)) (map string_bytes words.now)) }
    ensures local { IfOk result (λ c. (out-Command c).has_globals ≡ false) }
{
    match words.first() {
        Some(word) => named(alloc, word.as_str()),
        None => period_grammar(alloc, "rate", RATE),
    }
}

/// As much of the grammar as these words need: of the commands only that which the first word names,
/// since no other can be met.
pub(crate) fn grammar<'a>(alloc: Global, words: &[String]) -> Result<clap::Command<'a>, AllocError>
    ensures app { IfOk result (λ c. StandsIn (app_of c) (map string_bytes words.now)) }
{
    let Ok(command) = needed(alloc, words) else {
        return Err(AllocError);
    };
    let Ok(focusd) = bare_grammar(alloc) else {
        return Err(AllocError);
    };
    focusd.subcommand(command)
}
