//! The events of a schedule, in 12 bytes each.

ghost use Rattle.std.specs.Prelude.{◌≡◌, ◌<◌, ◌≤◌, ◌-◌, ℕ, List, All, Some, length, map};
ghost use Rattle.std.specs.List.{slice_get, slice_range};
ghost use Rattle.metering_model.specs.Limits.{most_input_bytes};
ghost use Rattle.schedule_reader.specs.Events.{HasWholeLines, StandsFrom, lines_of, planned_of};
ghost use Rattle.schedule_reader.specs.declared.events.Planned.{Planned};
ghost use Rattle.schedule_reader.specs.Inner.Packed.{IsPackedIn, unpacked};

use crate::events::Planned;
use std::marker::Model;

/// What is kept of an event. Of a journal and of a revival it is where in the text their lines begin and end. A text has
/// at most 16,777,216 bytes.
#[derive(Clone, Copy)]
pub(crate) enum Packed {
    Journal { from: u32, to: u32 },
    Deliver { packet: u32, node: u8 },
    Start { node: u8 },
    Restart { node: u8 },
    Export { node: u8, period: u16 },
    Keep { node: u8 },
    Revive { node: u8, from: u32, to: u32 },
}

const _: () = prove!(size_of::<Packed>() <= 12);

impl Packed {
    /// What is kept of an event whose lines, if it has some, end at a place. It stands for this event in each text that
    /// has these lines there.
    #[inline(always)]
    pub(crate) fn of(event: &Planned<'_>, end: usize) -> Packed
        requires { (length (lines_of event.now) ≤ end) × (end ≤ most_input_bytes) }
        ensures { (text : List ℕ) → HasWholeLines event.now → end ≤ length text
            → slice_range text (end - length (lines_of event.now)) end ≡ lines_of event.now
            → (unpacked text result ≡ planned_of event.now) × IsPackedIn text result }
    {
        match event {
            Planned::Journal(lines) => Packed::Journal {
                from: (end - lines.len()) as u32,
                to: end as u32,
            },
            Planned::Deliver { packet, node } => Packed::Deliver {
                packet: *packet,
                node: *node,
            },
            Planned::Start { node } => Packed::Start { node: *node },
            Planned::Restart { node } => Packed::Restart { node: *node },
            Planned::Export { node, period } => Packed::Export {
                node: *node,
                period: *period,
            },
            Planned::Keep { node } => Packed::Keep { node: *node },
            Planned::Revive { node, text } => Packed::Revive {
                node: *node,
                from: (end - text.len()) as u32,
                to: end as u32,
            },
        }
    }

    /// The event that this stands for in a text, from which its lines are lent.
    #[inline(always)]
    fn lent<'a>(self, text: &'a [u8]) -> Planned<'a>
        requires { IsPackedIn text.now self }
        ensures event { planned_of result ≡ unpacked text.now self }
        ensures lines { HasWholeLines result }
    {
        match self {
            Packed::Journal { from, to } => Planned::Journal(&text[from as usize..to as usize]),
            Packed::Deliver { packet, node } => Planned::Deliver { packet, node },
            Packed::Start { node } => Planned::Start { node },
            Packed::Restart { node } => Planned::Restart { node },
            Packed::Export { node, period } => Planned::Export { node, period },
            Packed::Keep { node } => Planned::Keep { node },
            Packed::Revive { node, from, to } => Planned::Revive {
                node,
                text: &text[from as usize..to as usize],
            },
        }
    }
}

/// Events as they stand in a schedule, in their order, and the schedule's text, in which what is journaled, or revived
/// from, stays.
#[derive(Drop)]
pub struct Events<'a> {
    text: &'a [u8],
    packed: Vec<Packed>,
}

impl<'a> Model for Events<'a> {
    ghost use Rattle.std.specs.Prelude.{All, map};
    ghost use Rattle.schedule_reader.specs.Events.{EventsIn};
    ghost use Rattle.schedule_reader.specs.Inner.Packed.{IsPackedIn, unpacked};

    ghost Value = { EventsIn };

    ghost view = { λ e.
        record { planned = map (unpacked e.text.now) e.packed.items; text = e.text.now } };

    ghost invariant = { λ e. All (IsPackedIn e.text.now) e.packed.items };
}

impl<'a> Events<'a> {
    /// The events that these stand for in a text.
    pub(crate) fn of(text: &'a [u8], packed: Vec<Packed>) -> Events<'a>
        requires { All (IsPackedIn text.now) packed.items }
        ensures planned { result.planned ≡ map (unpacked text.now) packed.items }
        ensures text { result.text ≡ text.now }
    {
        Events { text, packed }
    }

    /// How many events these are.
    pub fn len(&self) -> usize
        ensures { result ≡ length self.now.planned }
    {
        self.packed.len()
    }

    /// The event of this index, which is counted from 0.
    pub fn at(&self, index: usize) -> Planned<'a>
        requires { index < length self.now.planned }
        ensures event { slice_get self.now.planned index ≡ Some (planned_of result) }
        ensures lines { HasWholeLines result }
    {
        self.packed[index].lent(self.text)
    }

    /// A place in the text from which on the lines stand that the event of this index journals. Of another event it says
    /// nothing.
    pub fn journal_from(&self, index: usize) -> usize
        requires { index < length self.now.planned }
        ensures { (event : Planned) → slice_get self.now.planned index ≡ Some (planned_of event)
            → HasWholeLines event → StandsFrom self.now.text result event }
    {
        match self.packed[index] {
            Packed::Journal { from, .. } => from as usize,
            _ => 0,
        }
    }
}
