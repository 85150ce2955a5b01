//! `focusd schedule`: from batches to a schedule that closes their months.

ghost use Rattle.std.specs.Prelude.{◌≡◌, ◌≢◌, ◌+◌, ◌≤◌, ℕ, List, Some, Err, IfOk, IfErr, IfSome, IsOk, OnOk, OnErr, false, map};
ghost use Rattle.std.specs.Arc.{arc_value};
ghost use Rattle.std.specs.Io.KnownBytes.{Appends, IsAtEnd};
ghost use Rattle.counted_io.specs.Counts.{count_after};
ghost use Rattle.counted_io.specs.Reading.{ConsumesAtMost};
ghost use Rattle.counted_io.specs.Streams.{UsesStreams};
ghost use Rattle.counted_io.specs.Writing.{AppendsPrefix};
ghost use Rattle.metering_model.specs.Limits.{most_input_bytes};
ghost use Rattle.metering_model.specs.Transcript.{line};
ghost use Rattle.fault_lines.specs.Told.{said_of_fault};
ghost use Rattle.schedule_writer.specs.Faults.{TellsFaults, tells_of_reader, tells_of_writer};
ghost use Rattle.schedule_writer.specs.Requests.{IsRequest};
ghost use Rattle.schedule_writer.specs.Schedules.{IsScheduleOf};
ghost use Rattle.schedule_writer.specs.Inner.Certified.{IsCertified};
ghost use Rattle.schedule_writer.specs.Inner.Judged.{IsAskedBy, IsAskedWithin, IsFaultOf, IsReadInput, IsRefusedOr, IsUncertain, IsUnread};
ghost use Rattle.schedule_writer.specs.Inner.Plans.{IsPlan, plan_of, taken_of};
ghost use Rattle.schedule_writer.specs.Inner.Walks.{HasSheet, IsGiven};

use crate::asked::Request;
use crate::certifying::certify;
use crate::drafting::schedule_for;
use crate::faults::{Stop, WriteFault};
use crate::judging::{Items, read_items, refused};
use crate::last_closed::{last_closed, least_last};
use crate::plans::Plan;
use counted_io::{Sink, Source, write_all};
use fault_lines::put_fault;
use input_sections::{RateInput, ScheduleFault, rate_input};
use price_sheet::{Issuer, Sheet};
use schedule_player::{PlayFault, read_input};
use std::alloc::Global;
use std::sync::Arc;

/// The text of a schedule, where it stands the test.
fn certified_text(
    alloc: Global,
    plan: &Plan<'_>,
    input: &[u8],
    batch_from: usize,
    issuer: &Arc<Issuer>,
) -> Result<Vec<u8>, Stop>
    requires plan { IsPlan plan.now }
    requires input { HasSheet input.now (arc_value plan.now.sheet.now) }
    ensures { IfOk result (λ text. IsCertified (plan_of plan.now) plan.now.voters
        plan.now.observers plan.now.agents (arc_value plan.now.sheet.now) (arc_value issuer.now)
        text.items) }
{
    let text = match schedule_for(alloc, plan, input, batch_from) {
        Ok(text) => text,
        Err(stop) => return Err(stop),
    };
    match certify(alloc, plan, input, issuer, &text) {
        Ok(()) => Ok(text),
        Err(stop) => Err(stop),
    }
}

/// The schedule for an input, of which these were found: its batches, with what they ask, and the numbers of those above each line
/// that closes a period.
fn schedule_with(
    alloc: Global,
    request: Request,
    input: &[u8],
    batch_from: usize,
    sheet: &Arc<Sheet>,
    issuer: &Arc<Issuer>,
    found: &Items,
) -> Result<Vec<u8>, WriteFault>
    requires request { IsRequest request }
    requires within { IsAskedWithin found.now.asked.agents found.now.asked.last }
    requires input { IsReadInput input.now (arc_value sheet.now) (arc_value issuer.now)
        (map taken_of found.now.batches.items) found.now.closes.items }
    requires asked { IsAskedBy (arc_value sheet.now).base
        (map taken_of found.now.batches.items) found.now.asked.agents found.now.asked.last }
    ensures schedule { IfOk result
        (λ text. IsScheduleOf request (Some input.now) input.now text.items) }
    ensures fault { IfErr result IsUncertain }
{
    let through = request.through.unwrap_or(found.asked.last);
    let least = least_last(request.through, found.batches.len(), &found.closes);
    let Some(last) = last_closed(through, least) else {
        return Err(WriteFault::TooLong);
    };
    let plan = Plan {
        voters: request.nodes,
        observers: request.observers,
        nodes: request.nodes + request.observers,
        last,
        agents: found.asked.agents,
        sheet,
        batches: &found.batches,
        closes: &found.closes,
    };
    match certified_text(alloc, &plan, input, batch_from, issuer) {
        Ok(text) => Ok(text),
        Err(stop) => Err(WriteFault::from(stop)),
    }
}

/// The schedule for an input, behind whose sections these batches begin, by its sheet and its issuer.
fn schedule_by(
    alloc: Global,
    request: Request,
    text: &Arc<Vec<u8>>,
    input: &[u8],
    batch_from: usize,
    sheet: &Arc<Sheet>,
    issuer: &Arc<Issuer>,
) -> Result<Vec<u8>, WriteFault>
    requires request { IsRequest request }
    requires text { input.now ≡ (arc_value text.now).items }
    requires given { IsGiven input.now (arc_value sheet.now) (arc_value issuer.now) batch_from }
    ensures schedule { IfOk result
        (λ made. IsScheduleOf request (Some input.now) input.now made.items) }
    ensures fault { IfErr result (IsFaultOf input.now) }
{
    match read_items(alloc, sheet, issuer, text, input, batch_from) {
        Ok(items) => schedule_with(alloc, request, input, batch_from, sheet, issuer, &items),
        Err(fault) => Err(fault),
    }
}

/// A value, to be shared. One that is refused is dropped here, for the prover's time alone (docs/DECISIONS.md).
fn shared<T: Drop>(alloc: Global, value: T) -> Result<Arc<T>, WriteFault>
    ensures shared { IfOk result (λ arc. arc_value arc ≡ value) }
    ensures fault { IfErr result (λ fault. fault ≡ WriteFault.OutOfMemory) }
{
    match Arc::new(alloc, value) {
        Ok(arc) => Ok(arc),
        Err(_) => Err(WriteFault::OutOfMemory),
    }
}

/// The schedule for an input, behind whose sections these batches begin.
fn schedule_of(
    alloc: Global,
    request: Request,
    text: &Arc<Vec<u8>>,
    input: &[u8],
    given: RateInput,
) -> Result<Vec<u8>, WriteFault>
    requires request { IsRequest request }
    requires text { input.now ≡ (arc_value text.now).items }
    requires given { IsGiven input.now given.sheet given.issuer given.batch_from }
    ensures schedule { IfOk result
        (λ made. IsScheduleOf request (Some input.now) input.now made.items) }
    ensures fault { IfErr result (IsFaultOf input.now) }
{
    let RateInput {
        sheet,
        issuer,
        batch_from,
    } = given;
    let sheet = match shared(alloc, sheet) {
        Ok(sheet) => sheet,
        Err(fault) => {
            // Dropped by a call for the prover's time alone (docs/DECISIONS.md).
            issuer.release();
            return Err(fault);
        }
    };
    match shared(alloc, issuer) {
        Ok(issuer) => schedule_by(alloc, request, text, input, batch_from, &sheet, &issuer),
        Err(fault) => Err(fault),
    }
}

/// Why a text is refused that has this fault by its sections.
fn refused_for(alloc: Global, text: &[u8], fault: ScheduleFault) -> WriteFault
    ensures { IsRefusedOr (λ told. line told ≡ said_of_fault text.now fault) result }
{
    let mut told = Vec::new(alloc);
    match put_fault(alloc, &mut told, text, fault) {
        Ok(()) => refused(told),
        Err(_) => WriteFault::OutOfMemory,
    }
}

/// The schedule for an input, which is shared, so that no batch of it is copied.
fn schedule_for_input(
    alloc: Global,
    request: Request,
    input: Vec<u8>,
) -> Result<Vec<u8>, WriteFault>
    requires { IsRequest request }
    ensures schedule { IfOk result
        (λ made. IsScheduleOf request (Some input.items) input.items made.items) }
    ensures fault { IfErr result (IsFaultOf input.items) }
{
    let Ok(text) = Arc::new(alloc, input) else {
        return Err(WriteFault::OutOfMemory);
    };
    let input: &[u8] = &text;
    match rate_input(alloc, input) {
        Ok(given) => schedule_of(alloc, request, &text, input, given),
        Err(fault) => Err(refused_for(alloc, input, fault)),
    }
}

/// All of the input. Of one that is too long the same is told, whatever it is.
fn input_of<R: Source>(alloc: Global, reader: &mut R) -> Result<Vec<u8>, WriteFault>
    ensures whole { IfOk result
        (λ bytes. IfSome (R.remaining reader.old) (λ input. bytes.items ≡ input)) }
    ensures end { OnOk result (IsAtEnd (R.remaining reader.new)) }
    ensures fault { IfErr result (IsUnread (R.remaining reader.old)) }
    ensures taken { ConsumesAtMost (most_input_bytes + 1) (R.remaining reader.old)
        (R.remaining reader.new) }
    ensures count { R.failed_calls reader.new
        ≡ count_after (tells_of_reader result) (R.failed_calls reader.old) }
{
    match read_input(alloc, reader) {
        Ok(input) => Ok(input),
        Err(PlayFault::Read) => Err(WriteFault::Read),
        Err(PlayFault::Schedule(fault)) => Err(refused_for(alloc, b"", fault)),
        Err(_) => Err(WriteFault::OutOfMemory),
    }
}

/// Writes a text.
fn write_text<W: Sink>(text: &[u8], writer: &mut W) -> Result<(), WriteFault>
    ensures written { OnOk result
        (Appends (W.contents writer.old) (W.contents writer.new) text.now) }
    ensures prefix { OnErr result
        (AppendsPrefix (W.contents writer.old) (W.contents writer.new) text.now) }
    ensures fault { IfErr result (λ fault. fault ≡ WriteFault.Write) }
    ensures writes { W.failed_calls writer.new
        ≡ count_after (tells_of_writer result) (W.failed_calls writer.old) }
    ensures reads { tells_of_reader result ≡ false }
{
    match write_all(writer, text) {
        Ok(()) => Ok(()),
        Err(_) => Err(WriteFault::Write),
    }
}

/// Reads a sheet and an issuer, each if it is there, and batches, and writes a schedule that closes their months: each batch is
/// journaled, and each period closed after the batches that stand above its line `close`, or after all.
///
/// At most 16,777,217 bytes are read. After `Write` a prefix of the schedule was written, and after any other fault nothing.
/// `Refused` has the line of the whole input on which its sections are refused, or else the first batch that is not journaled, and
/// why, in the words of `check`. `TooLong` is meant for a schedule that would have more bytes, packets or periods than one may have, and `NotClosed` for
/// one that did not stand the test. A clause says that the journals take all batches then, and none says when either is reported.
pub fn schedule_text<R: Source, W: Sink>(
    alloc: Global,
    request: Request,
    reader: &mut R,
    writer: &mut W,
) -> Result<(), WriteFault>
    requires { IsRequest request }

    // With Ok just a schedule of the input was written, as it was asked for.
    ensures schedule { OnOk result ((input text : List ℕ)
        × IsScheduleOf request (R.remaining reader.old) input text
        × Appends (W.contents writer.old) (W.contents writer.new) text) }

    // After `Write` a prefix of it was, and never all of it.
    ensures prefix { result ≡ Err WriteFault.Write → (input text : List ℕ)
        × IsScheduleOf request (R.remaining reader.old) input text
        × AppendsPrefix (W.contents writer.old) (W.contents writer.new) text }

    // Of a refused section, or of the first batch that is not journaled, `check`'s words are told; and `TooLong` and `NotClosed`
    // hide neither.
    ensures faults { TellsFaults result (R.remaining reader.old) }
    ensures kept { IfErr result (λ fault. fault ≢ WriteFault.Write → writer.new ≡ writer.old) }

    // With Ok nothing is left to read. `Read` and `Write` come of one failed call each, and no other call fails.
    ensures streams { UsesStreams (most_input_bytes + 1) (IsOk result)
        (tells_of_reader result) (tells_of_writer result)
        (R.remaining reader.old) (R.remaining reader.new)
        (R.failed_calls reader.old) (R.failed_calls reader.new)
        (W.failed_calls writer.old) (W.failed_calls writer.new) }
{
    match input_of(alloc, reader) {
        Ok(input) => match schedule_for_input(alloc, request, input) {
            Ok(text) => write_text(&text, writer),
            Err(fault) => Err(fault),
        },
        Err(fault) => Err(fault),
    }
}
