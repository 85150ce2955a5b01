//! What is warned of, though nothing is refused for it.

ghost use Rattle.std.specs.Prelude.{◌≡◌, ◌++◌, List, OnOk};
ghost use Rattle.metering_model.specs.Batch.{Batch};
ghost use Rattle.group_events.specs.Events.{event_of};
ghost use Rattle.schedule_player.specs.Replies.{reply_of};
ghost use Rattle.fault_lines.specs.Ahead.{AreLatest, ahead_of_all};
ghost use Rattle.input_check.specs.Inner.Counted.{counted_of, handed_in, with_counted};

use fault_lines::LatestDays;
use group_events::{Event, Offer};
use schedule_player::Reply;
use std::alloc::AllocError;

/// Appends which readings are far ahead of the batch that an event hands in, which begins on a line.
fn put_handed_in(
    latest: &mut LatestDays,
    warned: &mut Vec<u8>,
    line: u32,
    event: &Event,
) -> Result<(), AllocError>
    ensures said { (journaled : List Batch) → AreLatest latest.old journaled → OnOk result
        (warned.new.items ≡ warned.old.items
        ++ ahead_of_all journaled (handed_in line (event_of event.now))) }
    ensures latest { (journaled : List Batch) → AreLatest latest.old journaled → OnOk result
        (AreLatest latest.new (with_counted (handed_in line (event_of event.now)) journaled)) }
{
    match event {
        Event::Journal(offer) => match offer {
            Offer::Good(batch) => latest.put_ahead(warned, line as usize, &batch.view()),
            Offer::Bad(_) => Ok(()),
        },
        _ => Ok(()),
    }
}

/// Appends them where the reply says that the batch was journaled.
pub(crate) fn put_ahead_of(
    latest: &mut LatestDays,
    warned: &mut Vec<u8>,
    line: u32,
    event: &Event,
    reply: &Reply,
) -> Result<(), AllocError>
    ensures said { (journaled : List Batch) → AreLatest latest.old journaled
        → OnOk result (warned.new.items
        ≡ warned.old.items ++ ahead_of_all journaled
        (counted_of line (event_of event.now) (reply_of reply.now))) }
    ensures latest { (journaled : List Batch) → AreLatest latest.old journaled → OnOk result
        (AreLatest latest.new (with_counted
        (counted_of line (event_of event.now) (reply_of reply.now)) journaled)) }
{
    match reply {
        Reply::Journaled { .. } => put_handed_in(latest, warned, line, event),
        _ => Ok(()),
    }
}
