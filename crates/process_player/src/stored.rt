//! What a process stored last: its log, or nothing.

ghost use Rattle.std.specs.Prelude.{◌≡◌, ◌<◌, ◌≤◌, length, IfErr, IfOk, Ok, codes, unwrap_or, ◌≢◌, Err};
ghost use Rattle.process_player.specs.declared.faults.ProcessFault.{ProcessFault};
ghost use Rattle.metering_model.specs.Limits.{most_transcript_bytes};
ghost use Rattle.log_text.specs.LogText.{IsLogHead, log_in, most_kept_lines, section_in};
ghost use Rattle.process_player.specs.Inner.Calls.{Reads};
ghost use Rattle.process_player.specs.Inner.Reading.{AreStoredShort, HasTaken, FallsShort};
ghost use Rattle.process_player.specs.Inner.Refusing.{OfAll, RejectsLog, RejectsStored};

use crate::faults::{ProcessFault, refused_at};
use byte_text::{is_same, whole_up_to};
use counted_io::Source;
use input_sections::{ScheduleCode, behind_word};
use line_source::{Unread, lines_end};
use log_text::{Log, LogFault, LogHead, has_head, read_log};
use node_kept::Kept;
use std::alloc::Global;

/// A log has no more lines than this: more do not fit.
const MOST_LINES: u64 = 4_294_967_295;

/// How many lines a log has that stands below a line.
fn log_lines(line: &[u8]) -> Option<u64>
    ensures { result ≡ section_in (codes "log ") most_kept_lines line.now }
{
    let Some(number) = behind_word(line, b"log ") else {
        return None;
    };
    let Some(lines) = whole_up_to(number, MOST_LINES) else {
        return None;
    };
    if lines < 1 { None } else { Some(lines) }
}

/// What is kept by a log, which has to be of this head: another's is refused as that before anything else of it is read.
fn kept_of(alloc: Global, head: &LogHead, text: &[u8]) -> Result<Kept, ProcessFault>
    requires { IsLogHead head.now }
    ensures read { IfOk result
        (λ kept. log_in text.now ≡ Ok (record { head = head.now; kept = kept })) }
    ensures refused { IfErr result (RejectsLog head.now text.now) }
{
    match has_head(alloc, head, text) {
        Ok(true) => {}
        Ok(false) => return Err(ProcessFault::OtherLog),
        Err(_) => return Err(ProcessFault::OutOfMemory),
    }
    match read_log(alloc, text) {
        Ok(log) => Ok(log.into_kept()),
        Err(LogFault::Refused { code, line }) => Err(ProcessFault::Log { code, line }),
        Err(LogFault::OutOfMemory) => Err(ProcessFault::OutOfMemory),
    }
}

/// Reads what a process stored last, and takes it: a log, below a line of that number that says how many lines it has, or
/// None for the line `new`. The room of the log, and of what stands before it, is given back.
pub(crate) fn read_stored<S: Source>(
    alloc: Global,
    own: &Log,
    line: u32,
    unread: &mut Unread,
    source: &mut S,
) -> Result<Option<Kept>, ProcessFault>
    requires read { unread.old.read ≤ most_transcript_bytes }
    requires head { IsLogHead own.now.head }
    requires at_hand { length unread.old.bytes < 65_536 }
    ensures taken { IfOk result (λ stored. HasTaken own.now (unwrap_or stored own.now.kept)
        unread.old.bytes unread.new.bytes (S.remaining source.old) (S.remaining source.new)) }
    ensures refused { IfErr result (λ fault. OfAll (RejectsStored own.now line fault)
        unread.old.bytes (S.remaining source.old)) }
    ensures reads { Reads result unread.new.read (S.failed_calls source.old)
        (S.failed_calls source.new) }
    ensures no_write { result ≢ Err ProcessFault.Write }
    ensures failed { IfErr result (λ fault. fault ≡ ProcessFault.Read
        → FallsShort (AreStoredShort line) unread.old.bytes unread.new.bytes
        (S.remaining source.old) (S.remaining source.new)) }
{
    unread.mark();
    let Some(end) = lines_end(unread, source, 0, 1)? else {
        return Err(refused_at(ScheduleCode::Lines, line));
    };
    if is_same(&unread.ahead()[..end - 1], b"new") {
        unread.take(end);
        unread.release();
        return Ok(None);
    }
    let Some(lines) = log_lines(&unread.ahead()[..end - 1]) else {
        return Err(refused_at(ScheduleCode::Event, line));
    };
    let Some(all) = lines_end(unread, source, end, lines)? else {
        return Err(refused_at(ScheduleCode::Lines, line));
    };
    let kept = kept_of(alloc, own.head(), &unread.ahead()[end..all])?;
    unread.take(all);
    unread.release();
    Ok(Some(kept))
}
