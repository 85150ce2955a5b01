//! Of which readings of a batch that is journaled an input is warned.

ghost use Rattle.std.specs.Prelude.{◌≡◌, ◌++◌, List, OnOk};
ghost use Rattle.metering_model.specs.Batch.{Batch};
ghost use Rattle.group_events.specs.Events.{event_of};
ghost use Rattle.fault_lines.specs.Ahead.{AreLatest, ahead_of_all};
ghost use Rattle.schedule_writer.specs.Inner.Counted.{handed_in, with_journaled};

use fault_lines::LatestDays;
use group_events::{Event, Offer};
use std::alloc::AllocError;

/// Appends which readings of the batch that an event hands in are far ahead of those above it, and takes the batch to these. So many
/// lines of the input stand above it.
pub(crate) fn put_ahead_of(
    latest: &mut LatestDays,
    warned: &mut Vec<u8>,
    lines: usize,
    event: &Event,
) -> Result<(), AllocError>
    ensures said { (before : List Batch) → AreLatest latest.old before → OnOk result
        (warned.new.items ≡ warned.old.items
        ++ ahead_of_all before (handed_in lines (event_of event.now))) }
    ensures latest { (before : List Batch) → AreLatest latest.old before → OnOk result
        (AreLatest latest.new (with_journaled (handed_in lines (event_of event.now)) before)) }
{
    match event {
        Event::Journal(offer) => match offer {
            Offer::Good(batch) => latest.put_ahead(warned, lines, &batch.view()),
            Offer::Bad(_) => Ok(()),
        },
        _ => Ok(()),
    }
}
