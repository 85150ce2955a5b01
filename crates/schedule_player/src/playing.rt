//! The events of a schedule, one after the other, and the lines of their replies.

ghost use Rattle.std.specs.Prelude.{◌≡◌, ◌<◌, ◌≤◌, ◌⊎◌, ◌++◌, [], ℕ, List, length, take, IfOk, OnOk, OnErr};
ghost use Rattle.std.specs.Arc.{arc_value};
ghost use Rattle.std.specs.Io.KnownBytes.{Appends};
ghost use Rattle.metering_model.specs.Schedule.{event_of};
ghost use Rattle.metering_model.specs.Step.{step};
ghost use Rattle.metering_model.specs.Transcript.{reply_text};
ghost use Rattle.schedule_reader.specs.Events.{HasWholeLines, StandsFrom, planned_of};
ghost use Rattle.schedule_player.specs.Inner.Held.{IsAfter, IsHeldOf};
ghost use Rattle.schedule_player.specs.Inner.Playing.{HasPlayed, events_of, text_of};
ghost use Rattle.schedule_player.specs.Inner.Writing.{FailsWithin};

use crate::events::event_within;
use crate::reply_lines::ReplyLines;
use counted_io::{Failed, Sink};
use group_core::World;
use schedule_reader::{Events, Planned};
use std::alloc::{AllocError, Global};
use std::sync::Arc;

/// Does one event, of which what is journaled stands in the text from a place on, and puts the text of its reply after
/// what waits. Where an allocation fails, nothing of it waits.
fn play_event(
    alloc: Global,
    world: &mut World,
    text: &Arc<Vec<u8>>,
    planned: &Planned<'_>,
    from: usize,
    lines: &mut ReplyLines,
) -> Result<(), AllocError>
    requires whole { HasWholeLines planned.now }
    requires there { StandsFrom (arc_value text.now).items from planned.now }
    requires held { IsHeldOf world.old lines.old.held }
    ensures text { OnOk result
        (lines.new.text ≡ lines.old.text
        ++ reply_text (step world.old (event_of (planned_of planned.now))).0) }
    ensures after { OnOk result
        (IsAfter world.old (event_of (planned_of planned.now)) world.new lines.new.held) }
    ensures kept { OnErr result (lines.new.text ≡ lines.old.text) }

    // The event is done or not.
    ensures left { OnErr result
        ((world.new ≡ world.old) ⊎
        (world.new ≡ (step world.old (event_of (planned_of planned.now))).1)) }
{
    let event = event_within(alloc, text, planned, from)?;
    let reply = world.step(alloc, &event)?;
    lines.add(alloc, &reply)
}

/// Writes what waits, if it is much. So what waits has a bound, however long a transcript is: before an event it is
/// little, and after it one reply's text more. (Of memory no clause speaks, and the file of the last export stays at
/// hand.)
fn write_many<W: Sink>(lines: &mut ReplyLines, writer: &mut W) -> Result<(), Failed>
    ensures written { OnOk result
        ((written : List ℕ) × (written ++ lines.new.text ≡ lines.old.text)
        × Appends (W.contents writer.old) (W.contents writer.new) written) }
    ensures held { lines.new.held ≡ lines.old.held }

    // Fewer bytes wait than are many.
    ensures few { OnOk result (length lines.new.text < 65_536) }
    ensures fails { FailsWithin result (W.contents writer.old) (W.contents writer.new)
        (W.failed_calls writer.old) (W.failed_calls writer.new) lines.old.text }
{
    if lines.are_many() {
        lines.write(writer)
    } else {
        Ok(())
    }
}

/// Does the events of a text in turn, as long as memory is found, and returns how many were done. What a transcript says of their
/// replies was written, or waits, and little of it waits.
fn play_on<W: Sink>(
    alloc: Global,
    world: &mut World,
    text: &Arc<Vec<u8>>,
    events: &Events<'_>,
    lines: &mut ReplyLines,
    writer: &mut W,
) -> Result<usize, Failed>
    requires text { events.now.text ≡ (arc_value text.now).items }
    requires none_wait { lines.old.text ≡ [] }
    requires held { IsHeldOf world.old lines.old.held }
    ensures played { IfOk result
        (λ done. HasPlayed world.old events.now.planned done world.new
        (W.contents writer.old) (W.contents writer.new) lines.new.text) }
    ensures fails { FailsWithin result (W.contents writer.old) (W.contents writer.new)
        (W.failed_calls writer.old) (W.failed_calls writer.new)
        (text_of world.old (events_of events.now.planned)) }
{
    for done in 0..events.len() {
        let planned = events.at(done);
        let from = events.journal_from(done);
        let Ok(()) = play_event(alloc, world, text, &planned, from, lines) else {
            return Ok(done);
        };
        write_many(lines, writer)?;
    }
    Ok(events.len())
}

/// Does the events in turn in a world, and writes their replies from these lines.
fn play_lines<W: Sink>(
    alloc: Global,
    world: &mut World,
    text: &Arc<Vec<u8>>,
    events: &Events<'_>,
    lines: &mut ReplyLines,
    writer: &mut W,
) -> Result<usize, Failed>
    requires text { events.now.text ≡ (arc_value text.now).items }
    requires none_wait { lines.old.text ≡ [] }
    requires held { IsHeldOf world.old lines.old.held }
    ensures within { IfOk result (λ done. done ≤ length events.now.planned) }
    ensures played { IfOk result
        (λ done. Appends (W.contents writer.old) (W.contents writer.new)
        (text_of world.old (events_of (take done events.now.planned)))) }
    ensures fails { FailsWithin result (W.contents writer.old) (W.contents writer.new)
        (W.failed_calls writer.old) (W.failed_calls writer.new)
        (text_of world.old (events_of events.now.planned)) }
{
    let done = play_on(alloc, world, text, events, lines, writer)?;
    lines.write(writer)?;
    Ok(done)
}

/// Does the events of a text in turn, as long as memory is found, and writes just what a transcript says of the replies of those
/// that were done. It answers how many these are.
pub(crate) fn play_events<W: Sink>(
    alloc: Global,
    world: World,
    text: &Arc<Vec<u8>>,
    events: &Events<'_>,
    writer: &mut W,
) -> Result<usize, Failed>
    requires { events.now.text ≡ (arc_value text.now).items }
    ensures within { IfOk result (λ done. done ≤ length events.now.planned) }
    ensures played { IfOk result
        (λ done. Appends (W.contents writer.old) (W.contents writer.new)
        (text_of world (events_of (take done events.now.planned)))) }
    ensures fails { FailsWithin result (W.contents writer.old) (W.contents writer.new)
        (W.failed_calls writer.old) (W.failed_calls writer.new)
        (text_of world (events_of events.now.planned)) }
{
    let mut world = world;
    let mut lines = ReplyLines::new(alloc);
    let done = play_lines(alloc, &mut world, text, events, &mut lines, writer);
    // Dropped by calls for the prover's time alone (docs/DECISIONS.md).
    drop(lines);
    world.release();
    done
}
