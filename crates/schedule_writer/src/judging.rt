//! Whether the journals take the batches, and what these ask of a group.

ghost use Rattle.std.specs.Prelude.{◌≡◌, ◌≤◌, ◌+◌, ◌++◌, ◌∷◌, [], ℕ, List, All, IfErr, IfOk, OnOk, Ok, map, length};
ghost use Rattle.std.specs.Arc.{arc_value};
ghost use Rattle.metering_model.specs.Batch.{Batch};
ghost use Rattle.metering_model.specs.BatchReading.{batch_in};
ghost use Rattle.metering_model.specs.Front.{is_due};
ghost use Rattle.metering_model.specs.Limits.{last_period};
ghost use Rattle.metering_model.specs.Sheet as model;
ghost use Rattle.metering_model.specs.Step.{step};
ghost use Rattle.metering_model.specs.Transcript.{line};
ghost use Rattle.batch_view.specs.Batches.{batch_of};
ghost use Rattle.group_events.specs.Offers.{IsOfferOf};
ghost use Rattle.schedule_writer.specs.Inputs.{batches_of, item_at, items_in};
ghost use Rattle.schedule_writer.specs.Refusals.{IsJournaled, answer_to, answers_to, journal_of};
ghost use Rattle.schedule_writer.specs.Inner.Judged.{IsAskedBy, IsAskedToo, IsAskedWithin, IsJudged, IsLaterStart, IsRefusedAmong, IsRefusedHere, IsRefusedNow, IsRefusedOr};
ghost use Rattle.schedule_writer.specs.Inner.Plans.{offered_of, taken_of};
ghost use Rattle.schedule_writer.specs.Inner.Walks.{IsFoundOf, IsFoundToo, IsItemLength, IsThere};

use crate::above::world_of;
use crate::faults::WriteFault;
use crate::inputs::{Item, Offered, item_at};
use crate::lines::journal_offered;
use batch_view::OwnedBatch;
use group_events::{Event, Offer, Period};
use price_sheet::{Issuer, Sheet};
use schedule_player::World;
use std::alloc::{AllocError, Global};
use std::sync::Arc;

/// The last period of all.
const LAST_PERIOD: u16 = 1_199;

/// What batches ask of a group.
#[derive(Clone, Copy, Drop)]
pub(crate) struct Asked {
    /// The greatest agent that one names, and 1 where none does.
    pub(crate) agents: u8,
    /// The last period in which a reading starts.
    pub(crate) last: u16,
}

/// A batch of an input, as it was read.
#[derive(Drop)]
pub(crate) struct Taken {
    /// The byte of the input at which it begins.
    pub(crate) from: usize,
    pub(crate) batch: Arc<OwnedBatch>,
}

/// The batches of an input, how many of them stand above each line that closes a period, and what they ask.
#[derive(Drop)]
pub(crate) struct Items {
    pub(crate) batches: Vec<Taken>,
    pub(crate) closes: Vec<usize>,
    pub(crate) asked: Asked,
}

/// What is offered as a batch of an input whose text is shared: its bytes stay where they are.
pub(crate) fn read_offer(
    alloc: Global,
    text: &Arc<Vec<u8>>,
    offered: &Offered<'_>,
) -> Result<Offer, AllocError>
    requires { IsThere (arc_value text.now).items (offered_of offered.now) }
    ensures { IfOk result (IsOfferOf offered.now.text.now) }
{
    Offer::read_within(alloc, text, offered.from, offered.from + offered.text.len())
}

/// Whether each reading of the batch starts before the end of the period.
fn is_due(sheet: &Sheet, batch: &OwnedBatch, period: u16) -> bool
    requires { period ≤ last_period }
    ensures { result ≡ is_due sheet.now.base period (batch_of batch.now) }
{
    match Period::new(period) {
        Some(period) => batch.starts_before(period.end(sheet.base_month())),
        None => false,
    }
}

/// The last period in which a reading of the batch starts, or this one, where that is later.
fn later_start(sheet: &Sheet, batch: &OwnedBatch, before: u16) -> u16
    requires { before ≤ last_period }
    ensures { IsLaterStart sheet.now.base (batch_of batch.now) before result }
{
    for period in before..LAST_PERIOD {
        if is_due(sheet, batch, period) {
            return period;
        }
    }
    LAST_PERIOD
}

/// What one more batch asks too.
fn with_batch(sheet: &Sheet, asked: Asked, batch: &OwnedBatch) -> Asked
    requires { IsAskedWithin asked.agents asked.last }
    ensures { IsAskedToo sheet.now.base (batch_of batch.now) asked result }
{
    Asked {
        agents: asked.agents.max(batch.view().agent()),
        last: later_start(sheet, batch, asked.last),
    }
}

/// What is asked with one more offer, where it is a batch.
fn asked_too(sheet: &Sheet, asked: Asked, offer: &Offer) -> Asked
    requires { IsAskedWithin asked.agents asked.last }
    ensures asked { (text : List ℕ) (b : Batch) → IsOfferOf text offer.now → batch_in text ≡ Ok b
        → IsAskedToo sheet.now.base (batch_of text) asked result }
    ensures within { IsAskedWithin result.agents result.last }
{
    match offer {
        Offer::Good(batch) => with_batch(sheet, asked, batch),
        Offer::Bad(_) => asked,
    }
}

/// Keeps what an offer that begins at a byte of the input was read as, where it is a batch.
fn keep_taken(batches: &mut Vec<Taken>, from: usize, offer: &Offer) -> Result<(), AllocError>
    ensures { (text : List ℕ) (b : Batch) → IsOfferOf text offer.now → batch_in text ≡ Ok b
        → OnOk result (map taken_of batches.new.items
        ≡ map taken_of batches.old.items ++ record { from = from; text = text } ∷ []) }
{
    let Offer::Good(batch) = offer else {
        return Ok(());
    };
    let Ok(batch) = Arc::try_clone(batch) else {
        return Err(AllocError);
    };
    match batches.push(Taken { from, batch }) {
        Ok(_) => Ok(()),
        Err(_) => Err(AllocError),
    }
}

/// A line without its line feed, as why a schedule is refused.
pub(crate) fn refused(told: Vec<u8>) -> WriteFault
    ensures { (text : List ℕ) → told.items ≡ line text
        → IsRefusedOr (λ words. words ≡ text) result }
{
    let mut told = told;
    told.pop();
    WriteFault::Refused(told)
}

/// Journals one more batch, keeps what it was read as, and answers what it asks too, or why it is refused.
fn judge(
    alloc: Global,
    world: &mut World,
    sheet: &Sheet,
    text: &Arc<Vec<u8>>,
    input: &[u8],
    offered: &Offered<'_>,
    batches: &mut Vec<Taken>,
    asked: Asked,
) -> Result<Asked, WriteFault>
    requires text { input.now ≡ (arc_value text.now).items }
    requires there { IsThere input.now (offered_of offered.now) }
    requires within { IsAskedWithin asked.agents asked.last }
    ensures journaled { OnOk result (IsJournaled (answer_to world.old offered.now.text.now)) }
    ensures world { OnOk result
        (world.new ≡ (step world.old (journal_of (offered_of offered.now))).1) }
    ensures batches { OnOk result (map taken_of batches.new.items
        ≡ map taken_of batches.old.items ++ offered_of offered.now ∷ []) }
    ensures asked { IfOk result
        (IsAskedToo sheet.now.base (batch_of offered.now.text.now) asked) }
    ensures refused { IfErr result
        (IsRefusedOr (IsRefusedNow input.now world.old (offered_of offered.now))) }
{
    let Ok(offer) = read_offer(alloc, text, offered) else {
        return Err(WriteFault::OutOfMemory);
    };
    let more = asked_too(sheet, asked, &offer);
    let Ok(()) = keep_taken(batches, offered.from, &offer) else {
        return Err(WriteFault::OutOfMemory);
    };
    let event = Event::Journal(offer);
    let mut told = Vec::new(alloc);
    let journaled = journal_offered(alloc, world, input, offered, None, &event, &mut told);
    // Dropped by a call for the prover's time alone (docs/DECISIONS.md).
    event.release();
    match journaled {
        Ok(true) => Ok(more),
        Ok(false) => Err(refused(told)),
        Err(_) => Err(WriteFault::OutOfMemory),
    }
}

/// Takes the item that begins at a byte of the input, a batch where the world journals it, and answers how many bytes it has.
fn take_item(
    alloc: Global,
    world: &mut World,
    sheet: &Sheet,
    text: &Arc<Vec<u8>>,
    input: &[u8],
    from: usize,
    items: &mut Items,
) -> Result<usize, WriteFault>
    requires text { input.now ≡ (arc_value text.now).items }
    requires from { from ≤ length input.now }
    requires within { IsAskedWithin items.old.asked.agents items.old.asked.last }
    ensures length { IfOk result (IsItemLength input.now from) }
    ensures found { OnOk result (IsFoundToo (item_at input.now from) items.old items.new) }
    ensures judged { (issuer : model.Issuer)
        → IsJudged sheet.now issuer
        (map taken_of items.old.batches.items) world.old items.old.asked.agents
        items.old.asked.last
        → OnOk result (IsJudged sheet.now issuer (map taken_of items.new.batches.items) world.new
        items.new.asked.agents items.new.asked.last) }
    ensures refused { IfErr result (IsRefusedOr (IsRefusedHere input.now from world.old)) }
{
    let (item, length) = item_at(input, from);
    match item {
        Item::Closes => match items.closes.push(items.batches.len()) {
            Ok(()) => Ok(length),
            Err(_) => Err(WriteFault::OutOfMemory),
        },
        Item::Offers(offered) => {
            match judge(
                alloc,
                world,
                sheet,
                text,
                input,
                &offered,
                &mut items.batches,
                items.asked,
            ) {
                Ok(asked) => {
                    items.asked = asked;
                    Ok(length)
                }
                Err(fault) => Err(fault),
            }
        }
    }
}

/// Takes the items from a byte of the input on in turn, in a group in which nothing has happened, and answers what stands there and
/// what its batches ask of one, or which is refused first: what stands behind that is not looked at.
fn take_items(
    alloc: Global,
    text: &Arc<Vec<u8>>,
    world: &mut World,
    sheet: &Sheet,
    input: &[u8],
    from: usize,
    items: &mut Items,
) -> Result<(), WriteFault>
    requires text { input.now ≡ (arc_value text.now).items }
    requires from { from ≤ length input.now }
    requires none { (items.old.batches.items ≡ []) × (items.old.closes.items ≡ []) }
    requires within { IsAskedWithin items.old.asked.agents items.old.asked.last }
    ensures found { OnOk result
        (IsFoundOf (items_in (length input.now) input.now from) items.new) }
    ensures within { OnOk result (IsAskedWithin items.new.asked.agents items.new.asked.last) }
    ensures judged { (issuer : model.Issuer)
        → IsJudged sheet.now issuer [] world.old items.old.asked.agents items.old.asked.last
        → OnOk result (IsJudged sheet.now issuer (map taken_of items.new.batches.items) world.new
        items.new.asked.agents items.new.asked.last) }
    ensures refused { (issuer : model.Issuer)
        → IsJudged sheet.now issuer [] world.old items.old.asked.agents items.old.asked.last
        → IfErr result (IsRefusedOr (IsRefusedAmong input.now sheet.now issuer
        (batches_of (items_in (length input.now) input.now from)))) }
{
    let mut here = from;
    for _ in 0..input.len() {
        if here == input.len() {
            return Ok(());
        }
        match take_item(alloc, world, sheet, text, input, here, items) {
            Ok(length) => here += length,
            Err(fault) => return Err(fault),
        }
    }
    Ok(())
}

/// Journals the batches from a byte of the input on in turn, in a group of one node and 64 agents in which nothing has happened, and
/// answers what stands there and what they ask of a group, or which is refused first: what stands behind that is not looked at.
pub(crate) fn read_items(
    alloc: Global,
    sheet: &Arc<Sheet>,
    issuer: &Arc<Issuer>,
    text: &Arc<Vec<u8>>,
    input: &[u8],
    from: usize,
) -> Result<Items, WriteFault>
    requires from { from ≤ length input.now }
    requires text { input.now ≡ (arc_value text.now).items }
    ensures found { IfOk result (IsFoundOf (items_in (length input.now) input.now from)) }
    ensures taken { IfOk result (λ r. All IsJournaled
        (answers_to (arc_value sheet.now) (arc_value issuer.now)
        (map taken_of r.batches.items))) }
    ensures asked { IfOk result (λ r. IsAskedBy
        (arc_value sheet.now).base (map taken_of r.batches.items) r.asked.agents r.asked.last) }
    ensures within { IfOk result (λ r. IsAskedWithin r.asked.agents r.asked.last) }
    ensures refused { IfErr result (IsRefusedOr (IsRefusedAmong
        input.now (arc_value sheet.now) (arc_value issuer.now)
        (batches_of (items_in (length input.now) input.now from)))) }
{
    let Ok(mut world) = world_of(alloc, 1, 0, 64, sheet, issuer) else {
        return Err(WriteFault::OutOfMemory);
    };
    let mut items = Items {
        batches: Vec::new(alloc),
        closes: Vec::new(alloc),
        asked: Asked { agents: 1, last: 0 },
    };
    let taken = take_items(alloc, text, &mut world, sheet, input, from, &mut items);
    // Dropped by a call for the prover's time alone (docs/DECISIONS.md).
    world.release();
    match taken {
        Ok(()) => Ok(items),
        Err(fault) => Err(fault),
    }
}
