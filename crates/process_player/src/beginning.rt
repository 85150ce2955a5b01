//! A process is begun, by what a stream gives first.

ghost use Rattle.std.specs.Arc.{arc_value};
ghost use Rattle.std.specs.Io.KnownBytes.{prepend_known};
ghost use Rattle.std.specs.Prelude.{◌≡◌, ◌<◌, ◌≤◌, length, IfErr, IfOk, MatchOption, unwrap_or, ◌≢◌, Err};
ghost use Rattle.process_player.specs.declared.faults.ProcessFault.{ProcessFault};
ghost use Rattle.metering_model.specs.Limits.{most_transcript_bytes};
ghost use Rattle.log_text.specs.Heads.{who_of};
ghost use Rattle.log_text.specs.LogText.{IsLogHead};
ghost use Rattle.process_player.specs.Refusals.{IsNoJournal, Rejects};
ghost use Rattle.process_player.specs.Runs.{BeginsNone};
ghost use Rattle.process_player.specs.Starts.{GoesOn};
ghost use Rattle.process_player.specs.Inner.Calls.{Reads};
ghost use Rattle.process_player.specs.Inner.Groups.{IsAmong, group_said};
ghost use Rattle.process_player.specs.Inner.Reading.{HasBegun};
ghost use Rattle.process_player.specs.Inner.Refusing.{OfAll};

use crate::faults::ProcessFault;
use crate::heads::{ProcessKind, drop_log};
use crate::preambles::{Preamble, drop_preamble, read_preamble};
use crate::stored::read_stored;
use counted_io::Source;
use group_process::{AgentProcess, Group, NodeProcess};
use input_sections::{Issuer, Sheet};
use line_source::Unread;
use log_text::{Log, LogHead, Who};
use node_kept::Kept;
use process_text::Process;
use std::alloc::{AllocError, Global};
use std::sync::Arc;

/// Drops a sheet that is shared beside no other value, for the prover's time alone (docs/DECISIONS.md).
fn drop_shared(_sheet: Arc<Sheet>) {}

/// The group of a head, a sheet and an issuer.
fn group_with(head: &LogHead, sheet: Arc<Sheet>, issuer: Arc<Issuer>) -> Group
    requires { IsLogHead head.now }
    ensures { result ≡ group_said head.now (arc_value sheet) (arc_value issuer) }
{
    let (voters, observers, agents) = (head.voters(), head.observers(), head.agents());
    Group::new(head.group(), voters, observers, agents, sheet, issuer)
}

/// The same of an issuer that nobody shares yet.
fn group_sharing(
    alloc: Global,
    head: &LogHead,
    sheet: Arc<Sheet>,
    issuer: Issuer,
) -> Result<Group, AllocError>
    requires { IsLogHead head.now }
    ensures { IfOk result (λ group. group ≡ group_said head.now (arc_value sheet) issuer) }
{
    match Arc::new(alloc, issuer) {
        Ok(issuer) => Ok(group_with(head, sheet, issuer)),
        Err(unshared) => {
            // Dropped by calls for the prover's time alone, here and below (docs/DECISIONS.md).
            unshared.value.release();
            drop_shared(sheet);
            Err(AllocError)
        }
    }
}

/// The same of a sheet and an issuer that nobody shares yet.
fn group_of(
    alloc: Global,
    head: &LogHead,
    sheet: Sheet,
    issuer: Issuer,
) -> Result<Group, AllocError>
    requires { IsLogHead head.now }
    ensures { IfOk result (λ group. group ≡ group_said head.now sheet issuer) }
{
    match Arc::new(alloc, sheet) {
        Ok(sheet) => group_sharing(alloc, head, sheet, issuer),
        Err(unshared) => {
            unshared.value.release();
            issuer.release();
            Err(AllocError)
        }
    }
}

/// The process that goes on with what is kept. None where that is no journal of the agent that it is.
fn process_of(alloc: Global, group: Group, who: Who, kept: Kept) -> Option<Process>
    requires kept { kept.agents ≡ group.agents }
    requires who { IsAmong group (who_of who) }
    ensures { MatchOption result (IsNoJournal (who_of who) kept) (GoesOn group (who_of who) kept) }
{
    match who {
        Who::Node(number) => Some(Process::Node(NodeProcess::go_on(alloc, group, number, kept))),
        Who::Agent(number) => match AgentProcess::go_on(group, number, kept) {
            Some(agent) => Some(Process::Agent(agent)),
            None => None,
        },
    }
}

/// What was stored last: what a process keeps that has stored nothing, where nothing was.
fn kept_or(stored: Option<Kept>, own: Log) -> Kept
    ensures { result ≡ unwrap_or stored own.kept }
{
    match stored {
        Some(kept) => {
            drop_log(own);
            kept
        }
        None => own.into_kept(),
    }
}

/// The process of a preamble, which goes on with what was stored last. None where that is no journal of the agent that it is.
fn process_with(
    alloc: Global,
    preamble: Preamble,
    stored: Option<Kept>,
) -> Result<Option<Process>, AllocError>
    requires head { IsLogHead preamble.own.head }
    requires kept { (unwrap_or stored preamble.own.kept).agents ≡ preamble.own.head.agents }
    ensures { IfOk result (λ process. MatchOption process
        (IsNoJournal preamble.own.head.who (unwrap_or stored preamble.own.kept))
        (GoesOn (group_said preamble.own.head preamble.sheet preamble.issuer)
        preamble.own.head.who (unwrap_or stored preamble.own.kept))) }
{
    let Preamble {
        own,
        sheet,
        issuer,
        ..
    } = preamble;
    let who = own.head().who();
    let Ok(group) = group_of(alloc, own.head(), sheet, issuer) else {
        drop_log(own);
        return Err(AllocError);
    };
    let kept = kept_or(stored, own);
    Ok(process_of(alloc, group, who, kept))
}

/// Reads with what a process is begun, takes it, and begins the process.
pub(crate) fn begin<S: Source>(
    alloc: Global,
    kind: ProcessKind,
    unread: &mut Unread,
    source: &mut S,
) -> Result<Process, ProcessFault>
    requires read { unread.old.read ≤ most_transcript_bytes }
    requires at_hand { length unread.old.bytes < 65_536 }
    ensures begun { IfOk result (λ process. HasBegun kind process unread.old.bytes
        unread.new.bytes (S.remaining source.old) (S.remaining source.new)) }
    ensures refused { IfErr result (λ fault. OfAll (λ input. Rejects kind input fault)
        unread.old.bytes (S.remaining source.old)) }
    ensures reads { Reads result unread.new.read (S.failed_calls source.old)
        (S.failed_calls source.new) }
    ensures no_write { result ≢ Err ProcessFault.Write }
    ensures failed { IfErr result (λ fault. fault ≡ ProcessFault.Read
        → BeginsNone kind (prepend_known unread.old.bytes (S.remaining source.old))
        (S.remaining source.new)) }
{
    let preamble = read_preamble(alloc, kind, unread, source)?;
    match read_stored(alloc, &preamble.own, preamble.line, unread, source) {
        Ok(stored) => {
            let Ok(found) = process_with(alloc, preamble, stored) else {
                return Err(ProcessFault::OutOfMemory);
            };
            match found {
                Some(process) => Ok(process),
                None => Err(ProcessFault::NoJournal),
            }
        }
        Err(fault) => {
            drop_preamble(preamble);
            Err(fault)
        }
    }
}
