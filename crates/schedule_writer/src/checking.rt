//! `focusd check --kind schedule`: what is wrong with an input that is to have a schedule, and what is odd.

ghost use Rattle.std.specs.Prelude.{◌≡◌, ◌++◌, ◌≤◌, List, Some, IfOk, OnOk, [], ◌∷◌, length, map, take};
ghost use Rattle.std.specs.Arc.{arc_value};
ghost use Rattle.metering_model.specs.Batch.{Batch};
ghost use Rattle.metering_model.specs.RatedAlone as model;
ghost use Rattle.metering_model.specs.Step.{play, step};
ghost use Rattle.metering_model.specs.Transcript.{line_count};
ghost use Rattle.fault_lines.specs.Ahead.{AreLatest, ahead_of_all};
ghost use Rattle.fault_lines.specs.Checked.{Checks};
ghost use Rattle.schedule_writer.specs.Checks.{IsSaidOf, if_journaled, journaled_of, said_of_input, told_of_answer, told_of_batches, warned_of_input};
ghost use Rattle.schedule_writer.specs.Refusals.{answer_to, journal_of};
ghost use Rattle.schedule_writer.specs.Inputs.{batches_of, item_at, items_in};
ghost use Rattle.schedule_writer.specs.Inner.Counted.{with_journaled};
ghost use Rattle.schedule_writer.specs.Inner.Plans.{offered_of};
ghost use Rattle.schedule_writer.specs.Inner.SaidLines.{lines_said, said_of_long};
ghost use Rattle.schedule_writer.specs.Inner.Walks.{IsGiven, IsItemLength, IsPlace, IsThere};

use crate::inputs::{Item, Offered, item_at};
use crate::judging::read_offer;
use crate::lines::journal_offered;
use crate::warnings::put_ahead_of;
use byte_text::line_count;
use counted_io::{Sink, Source};
use fault_lines::{Check, LatestDays, check_input, put_fault, put_unknown_on};
use group_events::Event;
use input_sections::{RateInput, rate_input};
use schedule_player::{PlayFault, World, opening_world};
use std::alloc::{AllocError, Global};
use std::sync::Arc;

/// Journals a batch below so many lines of the input, or appends why it is refused. Where it is journaled, its readings that are far ahead of those above it are appended
/// to another text, and the batch is taken to these.
fn check_offered(
    alloc: Global,
    world: &mut World,
    text: &Arc<Vec<u8>>,
    input: &[u8],
    above: usize,
    offered: &Offered<'_>,
    told: &mut Vec<u8>,
    latest: &mut LatestDays,
    warned: &mut Vec<u8>,
) -> Result<(), AllocError>
    requires text { input.now ≡ (arc_value text.now).items }
    requires there { IsThere input.now (offered_of offered.now) }
    requires place { IsPlace input.now offered.now.from (Some above) }
    ensures told { OnOk result (told.new.items ≡ told.old.items
        ++ told_of_answer input.now world.old (offered_of offered.now)
        (answer_to world.old offered.now.text.now)) }
    ensures ahead { (before : List Batch) → AreLatest latest.old before → OnOk result
        (warned.new.items ≡ warned.old.items ++ ahead_of_all before
        (if_journaled input.now (offered_of offered.now)
        (answer_to world.old offered.now.text.now))) }
    ensures latest { (before : List Batch) → AreLatest latest.old before → OnOk result
        (AreLatest latest.new (with_journaled
        (if_journaled input.now (offered_of offered.now)
        (answer_to world.old offered.now.text.now)) before)) }
    ensures world { OnOk result
        (world.new ≡ (step world.old (journal_of (offered_of offered.now))).1) }
{
    let Ok(offer) = read_offer(alloc, text, offered) else {
        return Err(AllocError);
    };
    let event = Event::Journal(offer);
    let checked = match journal_offered(alloc, world, input, offered, Some(above), &event, told) {
        Ok(true) => put_ahead_of(latest, warned, above, &event),
        Ok(false) => Ok(()),
        Err(error) => Err(error),
    };
    // Dropped by a call for the prover's time alone (docs/DECISIONS.md).
    event.release();
    checked
}

/// Appends what is told of the item that begins at a byte of the input, below so many lines, and what is odd of it, and answers how
/// many bytes it has.
fn check_item(
    alloc: Global,
    world: &mut World,
    text: &Arc<Vec<u8>>,
    input: &[u8],
    from: usize,
    above: usize,
    told: &mut Vec<u8>,
    latest: &mut LatestDays,
    warned: &mut Vec<u8>,
) -> Result<usize, AllocError>
    requires text { input.now ≡ (arc_value text.now).items }
    requires place { IsPlace input.now from (Some above) }
    ensures length { IfOk result (IsItemLength input.now from) }
    ensures told { OnOk result (told.new.items ≡ told.old.items
        ++ told_of_batches input.now world.old (batches_of (item_at input.now from ∷ []))) }
    ensures ahead { (before : List Batch) → AreLatest latest.old before → OnOk result
        (warned.new.items ≡ warned.old.items ++ ahead_of_all before
        (journaled_of input.now world.old (batches_of (item_at input.now from ∷ [])))) }
    ensures latest { (before : List Batch) → AreLatest latest.old before → OnOk result
        (AreLatest latest.new (with_journaled
        (journaled_of input.now world.old (batches_of (item_at input.now from ∷ []))) before)) }
    ensures world { OnOk result (world.new
        ≡ (play world.old (map journal_of (batches_of (item_at input.now from ∷ [])))).1) }
{
    let (item, length) = item_at(input, from);
    match item {
        Item::Closes => Ok(length),
        Item::Offers(offered) => {
            match check_offered(
                alloc, world, text, input, above, &offered, told, latest, warned,
            ) {
                Ok(()) => Ok(length),
                Err(error) => Err(error),
            }
        }
    }
}

/// How many lines stand above a later byte of the input, where so many stand above an earlier one.
fn lines_more(input: &[u8], from: usize, to: usize, above: usize) -> usize
    requires within { (from ≤ to) × (to ≤ length input.now) }
    requires above { above ≡ line_count (take from input.now) }
    ensures { result ≡ line_count (take to input.now) }
{
    above + line_count(&input[from..to])
}

/// Appends what is told of the items from a byte of the input on, and what is odd of them.
fn check_items(
    alloc: Global,
    world: &mut World,
    text: &Arc<Vec<u8>>,
    input: &[u8],
    from: usize,
    told: &mut Vec<u8>,
    warned: &mut Vec<u8>,
) -> Result<(), AllocError>
    requires text { input.now ≡ (arc_value text.now).items }
    requires from { from ≤ length input.now }
    ensures told { OnOk result (told.new.items ≡ told.old.items
        ++ told_of_batches input.now world.old
        (batches_of (items_in (length input.now) input.now from))) }
    ensures ahead { OnOk result (warned.new.items ≡ warned.old.items ++ ahead_of_all []
        (journaled_of input.now world.old
        (batches_of (items_in (length input.now) input.now from)))) }
{
    let mut latest = LatestDays::none();
    let mut above = line_count(&input[..from]);
    let mut here = from;
    for _ in 0..input.len() {
        if here == input.len() {
            return Ok(());
        }
        match check_item(
            alloc,
            world,
            text,
            input,
            here,
            above,
            told,
            &mut latest,
            warned,
        ) {
            Ok(length) => {
                above = lines_more(input, here, here + length, above);
                here += length;
            }
            Err(error) => return Err(error),
        }
    }
    Ok(())
}

/// Appends what is told of the batches of an input whose sections were read, and which of their readings are far ahead.
fn check_batches(
    alloc: Global,
    text: &Arc<Vec<u8>>,
    input: &[u8],
    given: RateInput,
    told: &mut Vec<u8>,
    warned: &mut Vec<u8>,
) -> Result<(), AllocError>
    requires text { input.now ≡ (arc_value text.now).items }
    requires given { IsGiven input.now given.sheet given.issuer given.batch_from }
    ensures told { OnOk result (told.new.items ≡ told.old.items ++ said_of_input input.now) }
    ensures ahead { OnOk result (warned.new.items ≡ warned.old.items ++ ahead_of_all []
        (journaled_of input.now (model.world_before given.sheet given.issuer)
        (batches_of (items_in (length input.now) input.now given.batch_from)))) }
{
    let RateInput {
        sheet,
        issuer,
        batch_from,
    } = given;
    // Of one node and 64 agents, as it is played for a schedule.
    let Ok(mut world) = opening_world(alloc, 1, 0, 64, sheet, issuer) else {
        return Err(AllocError);
    };
    let checked = check_items(alloc, &mut world, text, input, batch_from, told, warned);
    // Dropped by a call for the prover's time alone (docs/DECISIONS.md).
    world.release();
    checked
}

/// Appends what is wrong with an input, and to another text what is odd: first the keys that no reader takes.
fn put_said(
    alloc: Global,
    text: &Arc<Vec<u8>>,
    input: &[u8],
    told: &mut Vec<u8>,
    warned: &mut Vec<u8>,
) -> Result<(), AllocError>
    requires { input.now ≡ (arc_value text.now).items }
    ensures said { OnOk result (told.new.items ≡ told.old.items ++ said_of_input input.now) }
    ensures warned { OnOk result
        (warned.new.items ≡ warned.old.items ++ warned_of_input input.now) }
{
    match rate_input(alloc, input) {
        Ok(given) => {
            let Ok(()) = put_unknown_on(alloc, warned, input, 1) else {
                // Dropped by a call for the prover's time alone (docs/DECISIONS.md).
                given.release();
                return Err(AllocError);
            };
            check_batches(alloc, text, input, given, told, warned)
        }
        Err(fault) => put_fault(alloc, told, input, fault),
    }
}

/// What is to have a schedule.
#[derive(Drop)]
struct ToSchedule;

impl Check for ToSchedule {
    ghost said_of = { λ _. said_of_input };

    ghost warned_of = { λ _. warned_of_input };

    ghost lines = { λ _. lines_said };

    ghost long = { λ _. said_of_long };

    fn put(
        &self,
        alloc: Global,
        input: &Arc<Vec<u8>>,
        told: &mut Vec<u8>,
        warnings: &mut Vec<u8>,
    ) -> Result<(), AllocError> {
        put_said(alloc, input, input, told, warnings)
    }
}

/// Reads what `schedule` would read, and writes what is wrong with it and what is unusual: the first fault of its sections alone, or a line
/// for each batch that is not journaled after those above it that were, and then the warnings. It answers how many lines the refusals
/// are.
///
/// At most 16,777,217 bytes are read. After `Write` a prefix of the lines was written, and after any other fault nothing. Neither
/// `Schedule` nor `Refused` is ever answered.
pub fn check_schedule_input<R: Source, W: Sink>(
    alloc: Global,
    reader: &mut R,
    writer: &mut W,
) -> Result<u64, PlayFault>
    ensures { Checks IsSaidOf result writer.old writer.new
        (R.remaining reader.old) (R.remaining reader.new)
        (W.contents writer.old) (W.contents writer.new)
        (R.failed_calls reader.old) (R.failed_calls reader.new)
        (W.failed_calls writer.old) (W.failed_calls writer.new) }
{
    check_input(alloc, &ToSchedule, reader, writer)
}
