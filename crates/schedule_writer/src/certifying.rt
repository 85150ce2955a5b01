//! Whether a text is a schedule that does what was planned. It is read as `play` reads it, and its events are done as they are read; the
//! input's sheet and its batches are known by their bytes and not read again, and the files are not made.

ghost use Rattle.std.specs.Prelude.{◌≡◌, IfOk, OnOk, Some};
ghost use Rattle.std.specs.Arc.{arc_value};
ghost use Rattle.metering_model.specs.Schedule.{event_of};
ghost use Rattle.metering_model.specs.Step.{step};
ghost use Rattle.metering_model.specs.World.{opening};
ghost use Rattle.group_events.specs.Events.{event_of as offered_event};
ghost use Rattle.schedule_reader.specs.Events.{HasWholeLines, planned_of};
ghost use Rattle.schedule_reader.specs.Schedules.{events_in};
ghost use Rattle.schedule_writer.specs.Inner.Certified.{IsCertified};
ghost use Rattle.schedule_writer.specs.Inner.Walks.{HasSheet};
ghost use Rattle.schedule_writer.specs.Inner.Plans.{ComesNext, IsDone, IsDoneNext, IsPlan, behind, journals_behind, nothing_seen, plan_of};

use crate::above::{events_below, world_of};
use crate::faults::Stop;
use crate::plans::{Plan, Seen};
use batch_store::Store;
use group_events::{Event, Offer};
use input_sections::Unread;
use price_sheet::Issuer;
use schedule_player::{World, event_of};
use schedule_reader::{Planned, event_in};
use std::alloc::Global;
use std::sync::Arc;

/// Keeps the batch of an event that was taken, if it has one: the journals are looked at when a file is shown.
fn keep_batch(journals: &mut Store, event: &Event) -> Result<(), Stop>
    ensures { OnOk result (journals.new.batches
        ≡ journals_behind journals.old.batches (offered_event event.now)) }
{
    let Event::Journal(Offer::Good(batch)) = event else {
        return Ok(());
    };
    if batch.view().agent() > journals.agents() {
        return Err(Stop::NotClosed);
    }
    let Ok(shared) = Arc::try_clone(batch) else {
        return Err(Stop::OutOfMemory);
    };
    match journals.put(shared) {
        Ok(_) => Ok(()),
        Err(_) => Err(Stop::OutOfMemory),
    }
}

/// Does an event that was made of what is planned, keeps its batch, if it has one, and answers what was done behind it. The event
/// is by reference, for the prover's time alone (docs/DECISIONS.md).
fn do_made(
    alloc: Global,
    plan: &Plan<'_>,
    world: &mut World,
    journals: &mut Store,
    seen: Seen,
    planned: &Planned<'_>,
    event: &Event,
) -> Result<Seen, Stop>
    requires plan { IsPlan plan.now }
    requires whole { HasWholeLines planned.now }
    requires same { journals.old.batches ≡ world.old.journals }
    requires event { offered_event event.now ≡ event_of (planned_of planned.now) }
    requires next { ComesNext (plan_of plan.now) seen (planned_of planned.now) }
    ensures seen { IfOk result
        (λ next. behind (plan_of plan.now) seen world.old.journals
        (step world.old (event_of (planned_of planned.now))).0 (planned_of planned.now)
        ≡ Some next) }
    ensures world { OnOk result
        (world.new ≡ (step world.old (event_of (planned_of planned.now))).1) }
    ensures journals { OnOk result (journals.new.batches ≡ world.new.journals) }
{
    let Ok(reply) = world.step(alloc, event) else {
        return Err(Stop::OutOfMemory);
    };
    let next = plan.behind(alloc, seen, journals, planned, &reply);
    // Dropped by a call for the prover's time alone (docs/DECISIONS.md).
    reply.release();
    match next {
        Ok(Some(next)) => match keep_batch(journals, event) {
            Ok(()) => Ok(next),
            Err(stop) => Err(stop),
        },
        Ok(None) => Err(Stop::NotClosed),
        Err(stop) => Err(stop),
    }
}

/// The event that is planned. A batch is shared where it is the one that comes next, and nothing is answered where it is another.
fn event_for(
    alloc: Global,
    plan: &Plan<'_>,
    seen: Seen,
    planned: &Planned<'_>,
) -> Result<Event, Stop>
    requires { HasWholeLines planned.now }
    ensures event { IfOk result
        (λ event. offered_event event ≡ event_of (planned_of planned.now)) }
    ensures next { IfOk result
        (λ _. ComesNext (plan_of plan.now) seen (planned_of planned.now)) }
{
    if let Planned::Journal(lines) = planned {
        return plan.journal(seen, lines);
    }
    match event_of(alloc, planned) {
        Ok(event) => Ok(event),
        Err(_) => Err(Stop::OutOfMemory),
    }
}

/// Reads the event that stands next in the text, does it, and answers what was done behind it, and what is left of the text.
fn do_next<'a>(
    alloc: Global,
    plan: &Plan<'_>,
    world: &mut World,
    journals: &mut Store,
    seen: Seen,
    here: &Unread<'a>,
) -> Result<(Seen, Unread<'a>), Stop>
    requires plan { IsPlan plan.now }
    requires same { journals.old.batches ≡ world.old.journals }
    ensures done { IfOk result (λ next. IsDoneNext
        (plan_of plan.now) seen next.0 world.old world.new here.now next.1) }
    ensures journals { OnOk result (journals.new.batches ≡ world.new.journals) }
{
    let Ok(parts) = event_in(here) else {
        return Err(Stop::NotClosed);
    };
    let (planned, rest) = parts;
    let event = match event_for(alloc, plan, seen, &planned) {
        Ok(event) => event,
        Err(stop) => return Err(stop),
    };
    let next = do_made(alloc, plan, world, journals, seen, &planned, &event);
    // Dropped by a call for the prover's time alone (docs/DECISIONS.md).
    event.release();
    match next {
        Ok(next) => Ok((next, rest)),
        Err(stop) => Err(stop),
    }
}

/// Does the events that are left of the text in turn as they are read, no more than `most`, and answers what was done behind
/// them.
fn do_events(
    alloc: Global,
    plan: &Plan<'_>,
    world: &mut World,
    journals: &mut Store,
    unread: Unread<'_>,
    most: usize,
) -> Result<Seen, Stop>
    requires plan { IsPlan plan.now }
    requires same { journals.old.batches ≡ world.old.journals }
    ensures { IfOk result
        (λ seen. IsDone (plan_of plan.now) nothing_seen seen world.old
        (events_in most unread.entry)) }
{
    let mut seen = Seen {
        journaled: 0,
        ballots: 0,
        node: 0,
        period: 0,
    };
    let mut here = unread;
    for _ in 0..most {
        if here.left().is_empty() {
            return Ok(seen);
        }
        match do_next(alloc, plan, world, journals, seen, &here) {
            Ok((next, rest)) => {
                seen = next;
                here = rest;
            }
            Err(stop) => return Err(stop),
        }
    }
    Ok(seen)
}

/// Does the events of a text in the group that was planned, by an issuer, and answers what was done behind them.
fn do_behind(
    alloc: Global,
    plan: &Plan<'_>,
    issuer: &Arc<Issuer>,
    events: Unread<'_>,
    most: usize,
) -> Result<Seen, Stop>
    requires { IsPlan plan.now }
    ensures { IfOk result (λ seen. IsDone (plan_of plan.now) nothing_seen seen
        (opening plan.now.voters plan.now.observers plan.now.agents
        (arc_value plan.now.sheet.now) (arc_value issuer.now)) (events_in most events.entry)) }
{
    let (voters, observers, agents) = (plan.voters, plan.observers, plan.agents);
    let Ok(mut world) = world_of(alloc, voters, observers, agents, plan.sheet, issuer) else {
        return Err(Stop::OutOfMemory);
    };
    match Store::new(alloc, agents) {
        Ok(mut journals) => {
            let seen = do_events(alloc, plan, &mut world, &mut journals, events, most);
            // Dropped by a call for the prover's time alone (docs/DECISIONS.md), as in the other arm.
            world.release();
            seen
        }
        Err(_) => {
            world.release();
            Err(Stop::OutOfMemory)
        }
    }
}

/// Whether a text is a schedule that does what was planned, by the sheet of the input and this issuer.
pub(crate) fn certify(
    alloc: Global,
    plan: &Plan<'_>,
    input: &[u8],
    issuer: &Arc<Issuer>,
    text: &[u8],
) -> Result<(), Stop>
    requires plan { IsPlan plan.now }
    requires input { HasSheet input.now (arc_value plan.now.sheet.now) }
    ensures { OnOk result (IsCertified (plan_of plan.now) plan.now.voters plan.now.observers
        plan.now.agents (arc_value plan.now.sheet.now) (arc_value issuer.now) text.now) }
{
    let events = match events_below(alloc, plan, input, issuer, text) {
        Ok(events) => events,
        Err(stop) => return Err(stop),
    };
    match do_behind(alloc, plan, issuer, events, text.len()) {
        Ok(seen) => {
            if plan.is_done(seen) {
                Ok(())
            } else {
                Err(Stop::NotClosed)
            }
        }
        Err(stop) => Err(stop),
    }
}
