//! Events, made of what stands in a schedule.

ghost use Rattle.std.specs.Prelude.{◌≡◌, ◌+◌, ◌≤◌, IfOk, length};
ghost use Rattle.std.specs.Arc.{arc_value};
ghost use Rattle.std.specs.List.{slice_range};
ghost use Rattle.metering_model.specs.Schedule as model;
ghost use Rattle.metering_model.specs.World as world;
ghost use Rattle.metering_model.specs.KeptText.{kept_offer_of};
ghost use Rattle.group_events.specs.Events.{event_of, offer_of};
ghost use Rattle.group_events.specs.Offers.{kept_offer};
ghost use Rattle.schedule_reader.specs.Events.{HasWholeLines, StandsFrom, planned_of};

use group_events::{Event, KeptOffer, Offer};
use schedule_reader::Planned;
use std::alloc::{AllocError, Global};
use std::sync::Arc;

/// What the bytes of a journal hand in: they are copied once, and the copy is read once and kept.
fn offer_of(alloc: Global, text: &[u8]) -> Result<Offer, AllocError>
    ensures { IfOk result (λ offer. offer_of offer ≡ world.offer_of text.now) }
{
    let bytes = Vec::from_slice(alloc, text)?;
    Offer::read(alloc, bytes)
}

/// What so many bytes of a schedule's text hand in, from a place on: they stay where they are, and are read and kept.
fn offer_within(
    alloc: Global,
    text: &Arc<Vec<u8>>,
    from: usize,
    count: usize,
) -> Result<Offer, AllocError>
    requires { from + count ≤ length (arc_value text.now).items }
    ensures { IfOk result (λ offer. offer_of offer
        ≡ world.offer_of (slice_range (arc_value text.now).items from (from + count))) }
{
    Offer::read_within(alloc, text, from, from + count)
}

/// What the lines of a revival hand in: they are copied once, and the copy is read.
fn kept_offer_of(alloc: Global, text: &[u8]) -> Result<KeptOffer, AllocError>
    ensures { IfOk result (λ offer. kept_offer offer ≡ kept_offer_of text.now) }
{
    let bytes = Vec::from_slice(alloc, text)?;
    KeptOffer::read(alloc, bytes)
}

/// The event that a line or a section of a schedule describes; what is journaled is read as a batch. An error is an
/// allocation failure.
pub fn event_of(alloc: Global, planned: &Planned<'_>) -> Result<Event, AllocError>
    requires { HasWholeLines planned.now }
    ensures { IfOk result (λ event. event_of event ≡ model.event_of (planned_of planned.now)) }
{
    match planned {
        Planned::Journal(text) => match offer_of(alloc, text) {
            Ok(offer) => Ok(Event::Journal(offer)),
            Err(_) => Err(AllocError),
        },
        Planned::Deliver { packet, node } => Ok(Event::Deliver {
            packet: *packet,
            node: *node,
        }),
        Planned::Start { node } => Ok(Event::Start { node: *node }),
        Planned::Restart { node } => Ok(Event::Restart { node: *node }),
        Planned::Export { node, period } => Ok(Event::Export {
            node: *node,
            period: *period,
        }),
        Planned::Keep { node } => Ok(Event::Keep { node: *node }),
        Planned::Revive { node, text } => match kept_offer_of(alloc, text) {
            Ok(offer) => Ok(Event::Revive { node: *node, offer }),
            Err(_) => Err(AllocError),
        },
    }
}

/// The same event, of a schedule whose text is shared and in which what is journaled stands from a place on: its bytes
/// are not copied.
pub fn event_within(
    alloc: Global,
    text: &Arc<Vec<u8>>,
    planned: &Planned<'_>,
    from: usize,
) -> Result<Event, AllocError>
    requires whole { HasWholeLines planned.now }
    requires there { StandsFrom (arc_value text.now).items from planned.now }
    ensures { IfOk result (λ event. event_of event ≡ model.event_of (planned_of planned.now)) }
{
    match planned {
        Planned::Journal(lines) => match offer_within(alloc, text, from, lines.len()) {
            Ok(offer) => Ok(Event::Journal(offer)),
            Err(_) => Err(AllocError),
        },
        _ => event_of(alloc, planned),
    }
}
