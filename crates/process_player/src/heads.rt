//! What stands first: of which kind a process is, and its own line, the head of each of its logs.

ghost use Rattle.std.specs.Prelude.{◌≡◌, ◌≢◌, IfErr, IfOk, IsErr, Ok, Err};
ghost use Rattle.metering_model.specs.Transcript.{line};
ghost use Rattle.input_sections.specs.declared.faults.ScheduleFault.{ScheduleFault};
ghost use Rattle.log_text.specs.Heads.{who_of};
ghost use Rattle.log_text.specs.LogText.{log_in};
ghost use Rattle.process_player.specs.Starts.{head_of, heads_log, is_kind_of, kind_word, own_of};

use byte_text::is_same;
use input_sections::{ScheduleCode, ScheduleFault, Unread};
use log_text::{Log, LogFault, Who, read_log};
use std::alloc::{AllocError, Global};

/// Of which kind a process is.
#[derive(Clone, Copy, Debug, PartialEq, Eq)]
pub enum ProcessKind {
    /// A node: its input begins with the line `NODE 1`.
    Node,
    /// An agent: its input begins with the line `AGENT 1`.
    Agent,
}

/// The first line of all.
pub(crate) fn first_word(kind: ProcessKind) -> &'static [u8]
    ensures { result.now ≡ kind_word kind }
{
    match kind {
        ProcessKind::Node => b"NODE 1",
        ProcessKind::Agent => b"AGENT 1",
    }
}

/// Whether that one is of the kind.
fn is_kind_of(kind: ProcessKind, who: Who) -> bool
    ensures { result ≡ is_kind_of kind (who_of who) }
{
    match (kind, who) {
        (ProcessKind::Node, Who::Node(_)) => true,
        (ProcessKind::Agent, Who::Agent(_)) => true,
        _ => false,
    }
}

/// A line with its line feed.
fn whole_line(alloc: Global, text: &[u8]) -> Result<Vec<u8>, AllocError>
    ensures { IfOk result (λ whole. whole.items ≡ line text.now) }
{
    let Ok(mut whole) = Vec::from_slice(alloc, text) else {
        return Err(AllocError);
    };
    let Ok(()) = whole.extend_from_slice(b"\n") else {
        return Err(AllocError);
    };
    Ok(whole)
}

/// The second line is none that heads a log of such a process.
fn other_head() -> ScheduleFault
    ensures { result ≡ ScheduleFault.Refused ScheduleCode.Nodes 2 }
{
    ScheduleFault::Refused {
        code: ScheduleCode::Nodes,
        line: 2,
    }
}

/// The log that a line is which heads one.
fn log_of_line(alloc: Global, text: &[u8]) -> Result<Log, ScheduleFault>
    ensures read { IfOk result (λ own. log_in (line text.now) ≡ Ok own) }
    ensures refused { IfErr result (λ fault. fault ≢ ScheduleFault.OutOfMemory
        → (fault ≡ ScheduleFault.Refused ScheduleCode.Nodes 2) × IsErr (log_in (line text.now))) }
{
    let Ok(whole) = whole_line(alloc, text) else {
        return Err(ScheduleFault::OutOfMemory);
    };
    match read_log(alloc, &whole) {
        Ok(own) => Ok(own),
        Err(LogFault::Refused { .. }) => Err(other_head()),
        Err(LogFault::OutOfMemory) => Err(ScheduleFault::OutOfMemory),
    }
}

/// Drops a log beside no other value, for the prover's time alone (docs/DECISIONS.md).
pub(crate) fn drop_log(_own: Log) {}

/// Whether a line heads a log of such a process.
pub(crate) fn heads_log(alloc: Global, kind: ProcessKind, text: &[u8]) -> Result<bool, AllocError>
    ensures { IfOk result (λ is. is ≡ heads_log kind text.now) }
{
    match log_of_line(alloc, text) {
        Ok(own) => {
            let is_kind = is_kind_of(kind, own.head().who());
            drop_log(own);
            Ok(is_kind)
        }
        Err(ScheduleFault::Refused { .. }) => Ok(false),
        Err(ScheduleFault::OutOfMemory) => Err(AllocError),
    }
}

/// The log of a process that has stored nothing, and what is left behind its line.
fn read_own<'a>(
    alloc: Global,
    kind: ProcessKind,
    unread: &Unread<'a>,
) -> Result<(Log, Unread<'a>), ScheduleFault>
    ensures read { IfOk result (λ r. own_of kind unread.now ≡ Ok (r.0, r.1)) }
    ensures refused { IfErr result
        (λ fault. fault ≢ ScheduleFault.OutOfMemory → own_of kind unread.now ≡ Err fault) }
{
    let (text, rest) = match unread.first_line(ScheduleCode::Nodes) {
        Ok(found) => found,
        Err(fault) => return Err(fault),
    };
    match log_of_line(alloc, text) {
        Ok(own) => {
            if is_kind_of(kind, own.head().who()) {
                Ok((own, rest))
            } else {
                drop_log(own);
                Err(other_head())
            }
        }
        Err(fault) => Err(fault),
    }
}

/// Reads what stands first.
pub(crate) fn read_head<'a>(
    alloc: Global,
    kind: ProcessKind,
    unread: &Unread<'a>,
) -> Result<(Log, Unread<'a>), ScheduleFault>
    ensures read { IfOk result (λ r. head_of kind unread.now ≡ Ok (r.0, r.1)) }
    ensures refused { IfErr result
        (λ fault. fault ≢ ScheduleFault.OutOfMemory → head_of kind unread.now ≡ Err fault) }
{
    let (first, below) = match unread.first_line(ScheduleCode::Head) {
        Ok(found) => found,
        Err(fault) => return Err(fault),
    };
    if !is_same(first, first_word(kind)) {
        return Err(ScheduleFault::Refused {
            code: ScheduleCode::Head,
            line: 1,
        });
    }
    read_own(alloc, kind, &below)
}
