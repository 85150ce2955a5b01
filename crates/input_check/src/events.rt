//! The events of a schedule that are refused.

ghost use Rattle.std.specs.Prelude.{◌≡◌, ◌≤◌, ◌+◌, [], ◌++◌, List, length, IfOk, OnOk};
ghost use Rattle.std.specs.Arc.{arc_value};
ghost use Rattle.metering_model.specs.Limits.{most_agents, most_nodes};
ghost use Rattle.metering_model.specs.Batch.{Batch};
ghost use Rattle.metering_model.specs.Schedule.{PlansKeep, event_of};
ghost use Rattle.metering_model.specs.Step.{step};
ghost use Rattle.metering_model.specs.World as model;
ghost use Rattle.group_events.specs.Events.{event_of as offered_event};
ghost use Rattle.schedule_player.specs.Replies.{reply_of};
ghost use Rattle.schedule_reader.specs.Events.{HasWholeLines, StandsFrom, planned_of};
ghost use Rattle.schedule_reader.specs.Schedules.{events_in};
ghost use Rattle.input_check.specs.Checks.{line_of_kept, said_of_events, said_of_refused, said_of_reply, said_of_schedule};
ghost use Rattle.fault_lines.specs.Ahead.{AreLatest, ahead_of_all};
ghost use Rattle.fault_lines.specs.UnknownKeys.{unknown_on};
ghost use Rattle.input_check.specs.Warnings.{if_journaled, warned_of_schedule};
ghost use Rattle.input_check.specs.Inner.Counted.{counted_of, counted_of_events, with_counted};
ghost use Rattle.input_check.specs.Inner.Faults.{fault_of};
ghost use Rattle.input_check.specs.Inner.Replies.{IsBadIn, breaks_rule};

use crate::warnings::put_ahead_of;
use fault_lines::{LatestDays, put_at, put_fault, put_refused_text, put_unknown_on};
use group_events::Event;
use input_sections::{ScheduleFault, Unread};
use metering_model::Refusal;
use schedule_player::{Reply, World, event_within, opening_world};
use schedule_reader::{Planned, Preamble, event_in};
use std::alloc::{AllocError, Global};
use std::sync::Arc;

/// The line of a schedule on which its sheet opens, behind its head, its nodes and its agents.
const SHEET_LINE: u32 = 4;

/// The line of a revival's text that a refusal tells, or 0 where it tells none.
fn line_of_kept(refusal: Refusal) -> u64
    ensures { result ≡ line_of_kept refusal }
{
    match refusal {
        Refusal::BadKept(fault) => fault.line,
        _ => 0,
    }
}

/// Appends that an event of a world is refused, which begins on a line. Where its batch breaks a rule of the journals, this is
/// the first record that does.
fn put_refused(
    told: &mut Vec<u8>,
    world: &World,
    line: u32,
    planned: &Planned<'_>,
    bad: Option<u16>,
    refusal: Refusal,
) -> Result<(), AllocError>
    requires lines { HasWholeLines planned.now }
    requires refused { (step world.now (event_of (planned_of planned.now))).0
        ≡ model.Refused refusal }
    requires bad { IsBadIn world.now (planned_of planned.now) refusal bad }
    ensures { OnOk result (told.new.items ≡ told.old.items
        ++ said_of_refused line world.now (planned_of planned.now) refusal) }
{
    match planned {
        Planned::Journal(text) => {
            put_refused_text(told, line as usize, world.sheet(), text, bad, refusal)
        }
        Planned::Revive { .. } => {
            let below = line_of_kept(refusal);
            put_at(told, u128::from(line) + u128::from(below), refusal)
        }
        Planned::Deliver { .. }
        | Planned::Start { .. }
        | Planned::Restart { .. }
        | Planned::Export { .. }
        | Planned::Keep { .. } => put_at(told, u128::from(line), refusal),
    }
}

/// Appends it where the reply to the event says so.
fn put_reply(
    told: &mut Vec<u8>,
    world: &World,
    line: u32,
    planned: &Planned<'_>,
    bad: Option<u16>,
    reply: &Reply,
) -> Result<(), AllocError>
    requires lines { HasWholeLines planned.now }
    requires refused { (why : Refusal) → reply_of reply.now ≡ model.Refused why
        → (step world.now (event_of (planned_of planned.now))).0 ≡ model.Refused why }
    requires bad { (why : Refusal) → reply_of reply.now ≡ model.Refused why
        → IsBadIn world.now (planned_of planned.now) why bad }
    ensures { OnOk result (told.new.items ≡ told.old.items
        ++ said_of_reply line world.now (planned_of planned.now) (reply_of reply.now)) }
{
    match reply {
        Reply::Refused(refusal) => put_refused(told, world, line, planned, bad, *refusal),
        Reply::Journaled { .. }
        | Reply::Delivered { .. }
        | Reply::Started { .. }
        | Reply::Restarted
        | Reply::Exported(_)
        | Reply::KeptText(_) => Ok(()),
    }
}

/// Appends it where a `keep` of a node is refused. What it would tell, the text of all that the node keeps, is not made.
fn check_keep(
    told: &mut Vec<u8>,
    world: &World,
    line: u32,
    planned: &Planned<'_>,
    node: u8,
) -> Result<(), AllocError>
    requires lines { HasWholeLines planned.now }
    requires keep { planned_of planned.now ≡ PlansKeep node }
    ensures said { OnOk result (told.new.items ≡ told.old.items
        ++ said_of_reply line world.now (planned_of planned.now)
        (step world.now (event_of (planned_of planned.now))).0) }
    ensures stays { (step world.now (event_of (planned_of planned.now))).1 ≡ world.now }
{
    match world.keep_refusal(node) {
        Some(refusal) => put_refused(told, world, line, planned, None, refusal),
        None => Ok(()),
    }
}

/// Whether a reply refuses a batch for a rule of the journals.
fn breaks_rule(reply: &Reply) -> bool
    ensures { result ≡ breaks_rule (reply_of reply.now) }
{
    matches!(
        reply,
        Reply::Refused(Refusal::BadTarget) | Reply::Refused(Refusal::Unpriced)
    )
}

/// Appends it where the reply to an event refuses it, and else which of its readings are far ahead.
fn put_answer(
    told: &mut Vec<u8>,
    world: &World,
    line: u32,
    planned: &Planned<'_>,
    event: &Event,
    reply: &Reply,
    latest: &mut LatestDays,
    warned: &mut Vec<u8>,
) -> Result<(), AllocError>
    requires lines { HasWholeLines planned.now }
    requires event { offered_event event.now ≡ event_of (planned_of planned.now) }
    requires refused { (why : Refusal) → reply_of reply.now ≡ model.Refused why
        → (step world.now (event_of (planned_of planned.now))).0 ≡ model.Refused why }
    ensures said { OnOk result (told.new.items ≡ told.old.items
        ++ said_of_reply line world.now (planned_of planned.now) (reply_of reply.now)) }
    ensures ahead { (journaled : List Batch) → AreLatest latest.old journaled → OnOk result
        (warned.new.items ≡ warned.old.items ++ ahead_of_all journaled
        (counted_of line (offered_event event.now) (reply_of reply.now))) }
    ensures latest { (journaled : List Batch) → AreLatest latest.old journaled → OnOk result
        (AreLatest latest.new (with_counted
        (counted_of line (offered_event event.now) (reply_of reply.now)) journaled)) }
{
    let bad = if breaks_rule(reply) {
        world.bad_record(event)
    } else {
        None
    };
    put_reply(told, world, line, planned, bad, reply)?;
    put_ahead_of(latest, warned, line, event, reply)
}

/// Does one event that was made of what is planned, which begins on a line. The event is by reference, for the prover's time alone
/// (docs/DECISIONS.md).
fn check_made(
    alloc: Global,
    world: &mut World,
    line: u32,
    planned: &Planned<'_>,
    event: &Event,
    told: &mut Vec<u8>,
    latest: &mut LatestDays,
    warned: &mut Vec<u8>,
) -> Result<(), AllocError>
    requires lines { HasWholeLines planned.now }
    requires event { offered_event event.now ≡ event_of (planned_of planned.now) }
    ensures said { OnOk result
        (told.new.items ≡ told.old.items
        ++ said_of_reply line world.old (planned_of planned.now)
        (step world.old (event_of (planned_of planned.now))).0) }
    ensures ahead { (journaled : List Batch) → AreLatest latest.old journaled → OnOk result
        (warned.new.items ≡ warned.old.items ++ ahead_of_all journaled
        (if_journaled line (planned_of planned.now)
        (step world.old (event_of (planned_of planned.now))).0)) }
    ensures latest { (journaled : List Batch) → AreLatest latest.old journaled → OnOk result
        (AreLatest latest.new (with_counted
        (if_journaled line (planned_of planned.now)
        (step world.old (event_of (planned_of planned.now))).0)
        journaled)) }
    ensures world { OnOk result
        (world.new ≡ (step world.old (event_of (planned_of planned.now))).1) }
{
    let reply = world.step(alloc, event)?;
    put_answer(told, world, line, planned, event, &reply, latest, warned)
}

/// Does one event, which begins on a line; what it journals stands in the text from a place on.
fn check_event(
    alloc: Global,
    world: &mut World,
    line: u32,
    text: &Arc<Vec<u8>>,
    planned: &Planned<'_>,
    from: usize,
    told: &mut Vec<u8>,
    latest: &mut LatestDays,
    warned: &mut Vec<u8>,
) -> Result<(), AllocError>
    requires lines { HasWholeLines planned.now }
    requires there { StandsFrom (arc_value text.now).items from planned.now }
    ensures said { OnOk result
        (told.new.items ≡ told.old.items
        ++ said_of_reply line world.old (planned_of planned.now)
        (step world.old (event_of (planned_of planned.now))).0) }
    ensures ahead { (journaled : List Batch) → AreLatest latest.old journaled → OnOk result
        (warned.new.items ≡ warned.old.items ++ ahead_of_all journaled
        (if_journaled line (planned_of planned.now)
        (step world.old (event_of (planned_of planned.now))).0)) }
    ensures latest { (journaled : List Batch) → AreLatest latest.old journaled → OnOk result
        (AreLatest latest.new (with_counted
        (if_journaled line (planned_of planned.now)
        (step world.old (event_of (planned_of planned.now))).0)
        journaled)) }
    ensures world { OnOk result
        (world.new ≡ (step world.old (event_of (planned_of planned.now))).1) }
{
    if let Planned::Keep { node } = planned {
        return check_keep(told, world, line, planned, *node);
    }
    match event_within(alloc, text, planned, from) {
        Ok(event) => check_made(alloc, world, line, planned, &event, told, latest, warned),
        Err(error) => Err(error),
    }
}

/// Does the events that are left of a text in turn, no more than `most`, and answers the fault of the first that is none, or of what
/// stands where one would: that is not done, nor what stands behind it. No file of an export is made.
fn check_events(
    alloc: Global,
    world: &mut World,
    text: &Arc<Vec<u8>>,
    unread: Unread<'_>,
    most: usize,
    told: &mut Vec<u8>,
    warned: &mut Vec<u8>,
) -> Result<Option<ScheduleFault>, AllocError>
    requires { unread.text ≡ (arc_value text.now).items }
    ensures said { OnOk result
        (told.new.items ≡ told.old.items ++ said_of_events most world.old unread.entry) }
    ensures ahead { OnOk result (warned.new.items
        ≡ warned.old.items ++ ahead_of_all [] (counted_of_events most world.old unread.entry)) }
    ensures fault { IfOk result (λ fault. fault ≡ fault_of (events_in most unread.entry)) }
{
    let mut latest = LatestDays::none();
    let mut here = unread;
    for _ in 0..most {
        if here.left().is_empty() {
            return Ok(None);
        }
        let (planned, rest) = match event_in(&here) {
            Ok(parts) => parts,
            Err(fault) => return Ok(Some(fault)),
        };
        let from = planned.journal_from(rest.from());
        let Ok(()) = check_event(
            alloc,
            world,
            here.line(),
            text,
            &planned,
            from,
            told,
            &mut latest,
            warned,
        ) else {
            return Err(AllocError);
        };
        here = rest;
    }
    Ok(None)
}

/// Plays the events behind what stands above them, no more than `most`, in a group in which nothing has happened.
fn check_behind(
    alloc: Global,
    text: &Arc<Vec<u8>>,
    above: Preamble<'_>,
    most: usize,
    told: &mut Vec<u8>,
    warned: &mut Vec<u8>,
) -> Result<Option<ScheduleFault>, AllocError>
    requires nodes { (1 ≤ above.voters) × (above.voters + above.observers ≤ most_nodes) }
    requires agents { (1 ≤ above.agents) × (above.agents ≤ most_agents) }
    requires text { above.rest.text ≡ (arc_value text.now).items }
    ensures said { OnOk result (told.new.items ≡ told.old.items ++ said_of_events most
        (model.opening above.entry.voters above.entry.observers above.entry.agents above.entry.sheet
        above.entry.issuer) above.entry.rest) }
    ensures ahead { OnOk result
        (warned.new.items ≡ warned.old.items ++ ahead_of_all [] (counted_of_events most
        (model.opening above.entry.voters above.entry.observers above.entry.agents above.entry.sheet
        above.entry.issuer) above.entry.rest)) }
    ensures fault { IfOk result (λ fault. fault ≡ fault_of (events_in most above.entry.rest)) }
{
    let Preamble {
        voters,
        observers,
        agents,
        sheet,
        issuer,
        rest,
    } = above;
    let mut world = opening_world(alloc, voters, observers, agents, sheet, issuer)?;
    check_events(alloc, &mut world, text, rest, most, told, warned)
}

/// Appends the keys that no reader takes to what is warned of, and then what is wrong with the events behind what stands above
/// them.
fn check_read(
    alloc: Global,
    shared: &Arc<Vec<u8>>,
    text: &[u8],
    above: Preamble<'_>,
    told: &mut Vec<u8>,
    warned: &mut Vec<u8>,
) -> Result<Option<ScheduleFault>, AllocError>
    requires nodes { (1 ≤ above.voters) × (above.voters + above.observers ≤ most_nodes) }
    requires agents { (1 ≤ above.agents) × (above.agents ≤ most_agents) }
    requires text { above.rest.text ≡ (arc_value shared.now).items }
    ensures said { OnOk result
        (told.new.items ≡ told.old.items ++ said_of_events (length text.now)
        (model.opening above.entry.voters above.entry.observers above.entry.agents above.entry.sheet
        above.entry.issuer) above.entry.rest) }
    ensures warned { OnOk result (warned.new.items ≡ warned.old.items
        ++ (unknown_on 4 text.now ++ ahead_of_all [] (counted_of_events (length text.now)
        (model.opening above.entry.voters above.entry.observers above.entry.agents above.entry.sheet
        above.entry.issuer) above.entry.rest))) }
    ensures fault { IfOk result
        (λ fault. fault ≡ fault_of (events_in (length text.now) above.entry.rest)) }
{
    let Ok(()) = put_unknown_on(alloc, warned, text, SHEET_LINE) else {
        // Dropped by a call for the prover's time alone (docs/DECISIONS.md).
        above.release();
        return Err(AllocError);
    };
    check_behind(alloc, shared, above, text.len(), told, warned)
}

/// Appends what is said of a text, which is shared, and is to be a schedule, and in another place what is warned of. Where it turns out to be none,
/// what was said and warned of is taken back.
pub(crate) fn check_schedule(
    alloc: Global,
    shared: &Arc<Vec<u8>>,
    text: &[u8],
    told: &mut Vec<u8>,
    warned: &mut Vec<u8>,
) -> Result<(), AllocError>
    requires { text.now ≡ (arc_value shared.now).items }
    ensures said { OnOk result (told.new.items ≡ told.old.items ++ said_of_schedule text.now) }
    ensures warned { OnOk result
        (warned.new.items ≡ warned.old.items ++ warned_of_schedule text.now) }
{
    let above = match Preamble::read(alloc, text) {
        Ok(above) => above,
        Err(fault) => return put_fault(alloc, told, text, fault),
    };
    let said_before = told.len();
    let warned_before = warned.len();
    match check_read(alloc, shared, text, above, told, warned)? {
        Some(fault) => {
            told.truncate(said_before);
            warned.truncate(warned_before);
            put_fault(alloc, told, text, fault)
        }
        None => Ok(()),
    }
}
