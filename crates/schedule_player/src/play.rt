//! `focusd play`: the transcript of a schedule.

ghost use Rattle.std.specs.Prelude.{◌≡◌, ◌≢◌, ◌+◌, ◌≤◌, ◌⊎◌, List, ℕ, Err, IfOk, IfErr, IsOk, OnOk};
ghost use Rattle.std.specs.Arc.{arc_value};
ghost use Rattle.std.specs.Io.KnownBytes.{Appends, Keeps};
ghost use Rattle.metering_model.specs.Limits.{most_agents, most_nodes, most_input_bytes};
ghost use Rattle.counted_io.specs.Streams.{UsesStreams};
ghost use Rattle.counted_io.specs.Writing.{AppendsPrefix};
ghost use Rattle.metering_model.specs.declared.Refusal.{Refusal};
ghost use Rattle.metering_model.specs.World.{opening};
ghost use Rattle.metering_model.specs.Transcript.{transcript};
ghost use Rattle.program_input.specs.declared.ScheduleFault.{ScheduleFault};
ghost use Rattle.schedule_reader.specs.Schedules.{group_in, schedule_in};
ghost use Rattle.program_input.specs.Faults.{tells_of_reader, tells_of_writer};
ghost use Rattle.schedule_player.specs.Faults.{TellsFaults};
ghost use Rattle.schedule_player.specs.Transcripts.{IsPrefixOfTranscript, IsTranscriptOf, replies_to};
ghost use Rattle.schedule_player.specs.Inner.Playing.{AppendsFirst, events_of, read_of, text_of};
ghost use Rattle.schedule_player.specs.Inner.Writing.{Writes, WritesTranscript};

use crate::playing::play_events;
use counted_io::{Sink, Source};
use group_core::World;
use price_sheet::{Issuer, Sheet};
use program_input::{PlayFault, ScheduleFault, read_input};
use schedule_reader::{Events, Schedule};
use std::alloc::{AllocError, Global};
use std::sync::Arc;

/// A value, to be shared. One that is refused is dropped here, for the prover's time alone (docs/DECISIONS.md).
fn shared<T: Drop>(alloc: Global, value: T) -> Result<Arc<T>, AllocError>
    ensures { IfOk result (λ arc. arc_value arc ≡ value) }
{
    match Arc::new(alloc, value) {
        Ok(arc) => Ok(arc),
        Err(_) => Err(AllocError),
    }
}

/// A group of 1 to 99 nodes, of which at least 1 votes, and 1 to 64 agents before any event, by a sheet and an issuer.
/// An error is an allocation failure.
pub fn opening_world(
    alloc: Global,
    voters: u8,
    observers: u8,
    agents: u8,
    sheet: Sheet,
    issuer: Issuer,
) -> Result<World, AllocError>
    requires nodes { (1 ≤ voters) × (voters + observers ≤ most_nodes) }
    requires agents { (1 ≤ agents) × (agents ≤ most_agents) }
    ensures { IfOk result (λ world. world ≡ opening voters observers agents sheet issuer) }
{
    let Ok(sheet) = shared(alloc, sheet) else {
        issuer.release();
        return Err(AllocError);
    };
    let issuer = shared(alloc, issuer)?;
    World::new(alloc, voters, observers, agents, sheet, issuer)
}

/// Plays events in a world, and writes what a transcript says of them. They are by reference, for the prover's time alone
/// (docs/DECISIONS.md).
fn play_within<W: Sink>(
    alloc: Global,
    world: World,
    text: &Arc<Vec<u8>>,
    events: &Events<'_>,
    writer: &mut W,
) -> Result<(), PlayFault>
    requires { events.now.text ≡ (arc_value text.now).items }
    ensures writes { Writes result (W.contents writer.old) (W.contents writer.new)
        (W.failed_calls writer.old) (W.failed_calls writer.new)
        (text_of world (events_of events.now.planned)) }
    ensures memory { result ≡ Err PlayFault.OutOfMemory
        → AppendsFirst (W.contents writer.old) (W.contents writer.new)
        world events.now.planned }
    ensures others { (result ≢ Err PlayFault.Read)
        × ((fault : ScheduleFault) → result ≢ Err (PlayFault.Schedule fault))
        × ((refusal : Refusal) → result ≢ Err (PlayFault.Refused refusal)) }
{
    let Ok(done) = play_events(alloc, world, text, events, writer) else {
        return Err(PlayFault::Write);
    };
    if done == events.len() {
        Ok(())
    } else {
        Err(PlayFault::OutOfMemory)
    }
}

/// Plays a schedule that was read in a text, and writes its transcript.
fn play_schedule<W: Sink>(
    alloc: Global,
    text: &Arc<Vec<u8>>,
    schedule: Schedule<'_>,
    writer: &mut W,
) -> Result<(), PlayFault>
    requires nodes { (1 ≤ schedule.voters) × (schedule.voters + schedule.observers ≤ most_nodes) }
    requires agents { (1 ≤ schedule.agents) × (schedule.agents ≤ most_agents) }
    requires text { schedule.events.text ≡ (arc_value text.now).items }
    ensures writes { Writes result (W.contents writer.old) (W.contents writer.new)
        (W.failed_calls writer.old) (W.failed_calls writer.new)
        (transcript (replies_to (read_of schedule.entry) (read_of schedule.entry).events)) }
    ensures memory { result ≡ Err PlayFault.OutOfMemory
        → Keeps (W.contents writer.old) (W.contents writer.new)
        ⊎ AppendsFirst (W.contents writer.old) (W.contents writer.new)
        (opening schedule.entry.voters schedule.entry.observers schedule.entry.agents
        schedule.entry.sheet schedule.entry.issuer)
        schedule.entry.events.planned }
    ensures others { (result ≢ Err PlayFault.Read)
        × ((fault : ScheduleFault) → result ≢ Err (PlayFault.Schedule fault))
        × ((refusal : Refusal) → result ≢ Err (PlayFault.Refused refusal)) }
{
    let Schedule {
        voters,
        observers,
        agents,
        sheet,
        issuer,
        events,
    } = schedule;
    match opening_world(alloc, voters, observers, agents, sheet, issuer) {
        Ok(world) => play_within(alloc, world, text, &events, writer),
        Err(_) => Err(PlayFault::OutOfMemory),
    }
}

/// Plays the schedule that an input is, of which the text is shared, and writes its transcript.
fn play_input<W: Sink>(
    alloc: Global,
    text: &Arc<Vec<u8>>,
    input: &[u8],
    writer: &mut W,
) -> Result<(), PlayFault>
    requires { input.now ≡ (arc_value text.now).items }
    ensures writes { WritesTranscript result input.now
        (W.contents writer.old) (W.contents writer.new)
        (W.failed_calls writer.old) (W.failed_calls writer.new) }
    ensures section { (fault : ScheduleFault) → result ≡ Err (PlayFault.Schedule fault)
        → (fault ≢ ScheduleFault.OutOfMemory) × (schedule_in input.now ≡ Err fault) }
    ensures want { result ≡ Err PlayFault.OutOfMemory → IsOk (group_in input.now) }
    ensures kept { (fault : ScheduleFault) → result ≡ Err (PlayFault.Schedule fault)
        → writer.new ≡ writer.old }
    ensures no_read { result ≢ Err PlayFault.Read }
    ensures no_refusal { (refusal : Refusal) → result ≢ Err (PlayFault.Refused refusal) }
{
    match Schedule::read(alloc, input) {
        Ok(schedule) => play_schedule(alloc, text, schedule, writer),
        Err(fault) => Err(PlayFault::from(fault)),
    }
}

/// Why an input is not played for which there is no memory: its first fault as a schedule, or out of memory. Nothing is
/// written.
fn unplayed(alloc: Global, input: &[u8]) -> PlayFault
    ensures section { (fault : ScheduleFault) → result ≡ PlayFault.Schedule fault
        → (fault ≢ ScheduleFault.OutOfMemory) × (schedule_in input.now ≡ Err fault) }
    ensures want { result ≡ PlayFault.OutOfMemory → IsOk (group_in input.now) }
    ensures others { (result ≢ PlayFault.Read) × (result ≢ PlayFault.Write)
        × ((refusal : Refusal) → result ≢ PlayFault.Refused refusal) }
{
    let read = Schedule::read(alloc, input);
    match read {
        Ok(schedule) => {
            // Dropped by a call for the prover's time alone (docs/DECISIONS.md).
            schedule.release();
            PlayFault::OutOfMemory
        }
        Err(fault) => PlayFault::from(fault),
    }
}

/// Shares an input that was read, plays the schedule that it is, and writes its transcript.
fn play_read<W: Sink>(alloc: Global, input: Vec<u8>, writer: &mut W) -> Result<(), PlayFault>
    ensures writes { WritesTranscript result input.items
        (W.contents writer.old) (W.contents writer.new)
        (W.failed_calls writer.old) (W.failed_calls writer.new) }
    ensures section { (fault : ScheduleFault) → result ≡ Err (PlayFault.Schedule fault)
        → (fault ≢ ScheduleFault.OutOfMemory) × (schedule_in input.items ≡ Err fault) }
    ensures kept { IfErr result
        (λ fault. fault ≢ PlayFault.Write → fault ≢ PlayFault.OutOfMemory
        → writer.new ≡ writer.old) }
    ensures no_read { result ≢ Err PlayFault.Read }
    ensures no_refusal { (refusal : Refusal) → result ≢ Err (PlayFault.Refused refusal) }
{
    match Arc::new(alloc, input) {
        Ok(text) => play_input(alloc, &text, &text, writer),
        Err(refused) => Err(unplayed(alloc, &refused.value)),
    }
}

/// Plays the schedule that a reader gives, and writes its transcript. At most 16,777,217 bytes are read. After
/// `OutOfMemory` nothing was written, or the transcript of some first events, fewer than all; the error does not say
/// how many. After `Write`, one failed call, a proper prefix of the transcript was written, and after any other fault
/// nothing. `Refused` is never returned.
pub fn play_text<R: Source, W: Sink>(
    alloc: Global,
    reader: &mut R,
    writer: &mut W,
) -> Result<(), PlayFault>
    // With Ok just the transcript of the input was written.
    ensures transcript { OnOk result ((input text : List ℕ)
        × IsTranscriptOf (R.remaining reader.old) input text
        × Appends (W.contents writer.old) (W.contents writer.new) text) }

    // After `Write` a prefix of it was, and never all of it.
    ensures prefix { result ≡ Err PlayFault.Write → (input text : List ℕ)
        × IsTranscriptOf (R.remaining reader.old) input text
        × AppendsPrefix (W.contents writer.old) (W.contents writer.new) text }
    ensures memory { result ≡ Err PlayFault.OutOfMemory → (input text : List ℕ)
        × IsPrefixOfTranscript (R.remaining reader.old) input text
        × Appends (W.contents writer.old) (W.contents writer.new) text }

    // A section is refused as the input's first fault, and never for want of memory. `Refused` is never answered.
    ensures faults { TellsFaults result (R.remaining reader.old) }
    ensures kept { IfErr result
        (λ fault. fault ≢ PlayFault.Write → fault ≢ PlayFault.OutOfMemory
        → writer.new ≡ writer.old) }

    // With Ok nothing is left to read. `Read` and `Write` come of one failed call each, and no other call fails.
    ensures streams { UsesStreams (most_input_bytes + 1) (IsOk result)
        (tells_of_reader result) (tells_of_writer result)
        (R.remaining reader.old) (R.remaining reader.new)
        (R.failed_calls reader.old) (R.failed_calls reader.new)
        (W.failed_calls writer.old) (W.failed_calls writer.new) }
{
    let input = read_input(alloc, reader)?;
    play_read(alloc, input, writer)
}
