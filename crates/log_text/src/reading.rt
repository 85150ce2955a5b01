//! Logs, read from their text: the head line, the base, and each increment in turn.

ghost use Rattle.std.specs.Prelude.{◌≡◌, ◌+◌, ◌≤◌, length, Ok, Err, IfErr, IfOk, MatchResult};
ghost use Rattle.metering_model.specs.BatchReading.{lines_in};
ghost use Rattle.metering_model.specs.Limits.{most_agents};
ghost use Rattle.node_kept.specs.Kept.{IsKept};
ghost use Rattle.log_text.specs.Faults.{BeginsWithHead, IsFaultOf};
ghost use Rattle.log_text.specs.LogText.{log_in, most_log_bytes};
ghost use Rattle.log_text.specs.Inner.Reading.{HasNoStep, IfTold, IsStep, all_below, kept_below};

use crate::bases::{find_base, read_base};
use crate::faults::{LogCode, LogFault, fault_at};
use crate::head_line::read_head;
use crate::heads::LogHead;
use crate::increment_lines::{add_batch_of, add_line};
use crate::sections::read_section;
use byte_text::{first_line, lines_length};
use node_kept::{Kept, Parts};
use std::alloc::Global;
use std::marker::Model;

/// A log has no more bytes.
const MOST_LOG_BYTES: usize = 4_294_967_296;

/// What was read of a log: its head, and what is kept.
#[derive(Drop)]
pub struct Log {
    head: LogHead,
    kept: Kept,
}

impl Model for Log {
    ghost use Rattle.log_text.specs.LogText.{ReadLog};

    ghost Value = { ReadLog };

    ghost view = { λ l. record { head = l.head; kept = l.kept } };
}

impl Log {
    /// The head, lent.
    pub fn head(&self) -> &LogHead
        ensures { result.now ≡ self.now.head }
    {
        &self.head
    }

    /// What is kept, lent.
    pub fn kept(&self) -> &Kept
        ensures { result.now ≡ self.now.kept }
    {
        &self.kept
    }

    /// What is kept.
    pub fn into_kept(self) -> Kept
        ensures { result ≡ self.kept }
    {
        self.kept
    }
}

/// How many lines an increment has, and what stands behind it.
#[derive(Clone, Copy)]
struct Step<'a> {
    lines: u64,
    behind: &'a [u8],
}

/// Adds the increment that stands first, on the line of that number, and on the lines that this says to be below it, to
/// what is kept.
fn add_step<'a>(
    alloc: Global,
    parts: &mut Parts,
    number: u64,
    line: &[u8],
    below: &'a [u8],
) -> Result<Step<'a>, LogFault>
    requires { IsKept parts.old }
    ensures { MatchResult result
        (λ step. IsStep parts.old line.now below.now parts.new step.lines step.behind.now)
        (λ fault. IfTold fault (HasNoStep parts.old number line.now below.now)) }
{
    let Some(lines) = read_section(line, b"batch ", 1_001) else {
        return match add_line(alloc, parts, line) {
            Ok(()) => Ok(Step {
                lines: 1,
                behind: below,
            }),
            Err(why) => Err(fault_at(number, LogCode::Increment, why)),
        };
    };
    let Some(length) = lines_length(below, lines) else {
        return Err(LogFault::Refused {
            code: LogCode::Torn,
            line: number,
        });
    };
    let (front, behind) = below.split_at(length);
    match add_batch_of(alloc, parts, lines, front) {
        Ok(()) => Ok(Step {
            lines: 1 + u64::from(lines),
            behind,
        }),
        Err(why) => Err(fault_at(number, LogCode::Increment, why)),
    }
}

/// Adds all increments, of which the first stands on that line, to what is kept.
fn add_increments(alloc: Global, text: &[u8], first: u64, parts: &mut Parts) -> Result<(), LogFault>
    requires kept { IsKept parts.old }
    requires lines { first + length (lines_in text.now).lines ≤ 10_000_000_000 }
    ensures { MatchResult result
        (λ _. IsKept parts.new × (kept_below first parts.old text.now ≡ Ok parts.new))
        (λ fault. IfTold fault (λ f. kept_below first parts.old text.now ≡ Err f)) }
{
    let mut rest = text;
    let mut line = first;
    while let Some((here, below)) = first_line(rest) {
        let step = match add_step(alloc, parts, line, here, below) {
            Ok(step) => step,
            Err(fault) => return Err(fault),
        };
        line += step.lines;
        rest = step.behind;
    }
    if !rest.is_empty() {
        return Err(LogFault::Refused {
            code: LogCode::Torn,
            line,
        });
    }
    Ok(())
}

/// What is kept by the lines below a head line.
fn read_below(alloc: Global, agents: u8, text: &[u8]) -> Result<Kept, LogFault>
    requires from { 1 ≤ agents }
    requires to { agents ≤ most_agents }
    requires short { length (lines_in text.now).lines ≤ most_log_bytes }
    ensures { MatchResult result
        (λ kept. all_below agents text.now ≡ Ok kept)
        (λ fault. IfTold fault (λ f. all_below agents text.now ≡ Err f)) }
{
    let Some(base) = find_base(text) else {
        return Err(LogFault::Refused {
            code: LogCode::Torn,
            line: 2,
        });
    };
    match read_base(alloc, agents, base.lines, base.front) {
        Ok(mut parts) => match add_increments(alloc, base.left, base.line, &mut parts) {
            Ok(()) => Ok(Kept::of(parts)),
            Err(fault) => Err(fault),
        },
        Err(why) => Err(fault_at(2, LogCode::Kept, why)),
    }
}

/// The log whose text this is: its head, and what is kept when all that it says was added, in order. `Refused` is the
/// first fault by line, and comes too where the last line does not end; `OutOfMemory` comes only of a text that begins
/// with a head line and is not too long.
pub fn read_log(alloc: Global, text: &[u8]) -> Result<Log, LogFault>
    ensures read { IfOk result (λ log. log_in text.now ≡ Ok log) }
    ensures refused { IfErr result (IsFaultOf text.now) }
    ensures want { result ≡ Err LogFault.OutOfMemory → BeginsWithHead text.now }
{
    if text.len() > MOST_LOG_BYTES {
        return Err(LogFault::Refused {
            code: LogCode::TooLong,
            line: 1,
        });
    }
    let fault = LogFault::Refused {
        code: LogCode::Head,
        line: 1,
    };
    let Some((line, below)) = first_line(text) else {
        return Err(fault);
    };
    let Some(head) = read_head(line) else {
        return Err(fault);
    };
    match read_below(alloc, head.agents(), below) {
        Ok(kept) => Ok(Log { head, kept }),
        Err(fault) => Err(fault),
    }
}
