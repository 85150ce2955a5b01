//! The events of a schedule, one line or one journal at a time.

ghost use Rattle.std.specs.Prelude.{◌≡◌, ◌≢◌, ◌≤◌, ℕ, List, Ok, Err, length, codes, option_map, IfOk, IfErr, IfSome, MatchResult};
ghost use Rattle.metering_model.specs.Limits.{last_period, last_node, last_packet, most_input_bytes, most_revival_lines};
ghost use Rattle.metering_model.specs.Schedule.{PlansDelivery, PlansStart, PlansRestart, PlansExport, PlansKeep};
ghost use Rattle.schedule_reader.specs.Events.{EndsAt, HasWholeLines, StandsFrom, lines_of, planned_of};
ghost use Rattle.schedule_reader.specs.Schedules.{one_behind, two_behind, event_of_line, line_event, journal_event, revival_of_line, revival_event, event_in, events_in};

use crate::lines::{one_behind, two_behind};
use crate::packed::{Events, Packed};
use input_sections::{ScheduleCode, ScheduleFault, Unread, lines_below, read_section};
use std::alloc::Global;

const LAST_NODE: u32 = 98;

const LAST_PACKET: u32 = 999_999;

const LAST_PERIOD: u32 = 1_199;

/// A revival has no more lines than this.
const MOST_LINES: u32 = 200_000;

/// An event as it stands in a schedule. What is journaled is lent from the text, and not read as a batch.
#[derive(Clone, Copy, Drop)]
pub enum Planned<'a> {
    /// These lines, each with its line feed, are offered as a batch.
    Journal(&'a [u8]),
    /// The packet of this number reaches a node.
    Deliver { packet: u32, node: u8 },
    /// A node begins a ballot of its own.
    Start { node: u8 },
    /// A node forgets what it does not keep.
    Restart { node: u8 },
    /// A node is asked for the file of a period.
    Export { node: u8, period: u16 },
    /// A node is asked for the text of what it keeps.
    Keep { node: u8 },
    /// A node restarts from these lines, each with its line feed.
    Revive { node: u8, text: &'a [u8] },
}

impl<'a> Planned<'a> {
    /// Where in a text the lines begin that it journals, which end at a place. Of another event it says nothing.
    #[inline(always)]
    pub fn journal_from(&self, end: usize) -> usize
        requires { length (lines_of self.now) ≤ end }
        ensures { (text : List ℕ) → EndsAt text end (lines_of self.now)
            → StandsFrom text result self.now }
    {
        match self {
            Planned::Journal(lines) => end - lines.len(),
            _ => 0,
        }
    }
}

fn delivery<'a>(line: &'a [u8]) -> Option<Planned<'a>>
    ensures event { option_map planned_of result
        ≡ option_map (λ n. PlansDelivery n.0 n.1)
        (two_behind (codes "deliver ") last_packet last_node line.now) }
    ensures lines { IfSome result HasWholeLines }
{
    let (packet, node) = two_behind(line, b"deliver ", LAST_PACKET, LAST_NODE)?;
    Some(Planned::Deliver {
        packet,
        node: node as u8,
    })
}

fn start<'a>(line: &'a [u8]) -> Option<Planned<'a>>
    ensures event { option_map planned_of result
        ≡ option_map PlansStart (one_behind (codes "start ") last_node line.now) }
    ensures lines { IfSome result HasWholeLines }
{
    let node = one_behind(line, b"start ", LAST_NODE)?;
    Some(Planned::Start { node: node as u8 })
}

fn restart<'a>(line: &'a [u8]) -> Option<Planned<'a>>
    ensures event { option_map planned_of result
        ≡ option_map PlansRestart (one_behind (codes "restart ") last_node line.now) }
    ensures lines { IfSome result HasWholeLines }
{
    let node = one_behind(line, b"restart ", LAST_NODE)?;
    Some(Planned::Restart { node: node as u8 })
}

fn export<'a>(line: &'a [u8]) -> Option<Planned<'a>>
    ensures event { option_map planned_of result
        ≡ option_map (λ n. PlansExport n.0 n.1)
        (two_behind (codes "export ") last_node last_period line.now) }
    ensures lines { IfSome result HasWholeLines }
{
    let (node, period) = two_behind(line, b"export ", LAST_NODE, LAST_PERIOD)?;
    Some(Planned::Export {
        node: node as u8,
        period: period as u16,
    })
}

fn keep<'a>(line: &'a [u8]) -> Option<Planned<'a>>
    ensures event { option_map planned_of result
        ≡ option_map PlansKeep (one_behind (codes "keep ") last_node line.now) }
    ensures lines { IfSome result HasWholeLines }
{
    let node = one_behind(line, b"keep ", LAST_NODE)?;
    Some(Planned::Keep { node: node as u8 })
}

/// The event that a line is, if it is one.
fn event_of_line<'a>(line: &'a [u8]) -> Option<Planned<'a>>
    ensures event { option_map planned_of result ≡ event_of_line line.now }
    ensures lines { IfSome result HasWholeLines }
{
    if let Some(event) = delivery(line) {
        return Some(event);
    }
    if let Some(event) = start(line) {
        return Some(event);
    }
    if let Some(event) = restart(line) {
        return Some(event);
    }
    if let Some(event) = export(line) {
        return Some(event);
    }
    keep(line)
}

/// The event of the next line, and what is left after it.
#[tactic(auto, unfolding(crate::specs::Schedules::line_event))]
fn line_event<'a>(unread: &Unread<'a>) -> Result<(Planned<'a>, Unread<'a>), ScheduleFault>
    ensures event { MatchResult result (λ r. line_event unread.now ≡ Ok (planned_of r.0, r.1))
        (λ fault. line_event unread.now ≡ Err fault) }
    ensures want { IfErr result (λ fault. fault ≢ ScheduleFault.OutOfMemory) }
    ensures lines { IfOk result (λ r. HasWholeLines r.0) }
    ensures text { IfOk result (λ r. r.1.text ≡ unread.now.text) }
{
    let (line, rest) = unread.first_line(ScheduleCode::Event)?;
    match event_of_line(line) {
        Some(event) => Ok((event, rest)),
        None => Err(ScheduleFault::Refused {
            code: ScheduleCode::Event,
            line: unread.line(),
        }),
    }
}

/// The journal that the next line opens, and what is left after its lines.
#[tactic(auto, unfolding(crate::specs::Schedules::journal_event))]
fn journal_event<'a>(unread: &Unread<'a>) -> Result<(Planned<'a>, Unread<'a>), ScheduleFault>
    ensures event { MatchResult result (λ r. journal_event unread.now ≡ Ok (planned_of r.0, r.1))
        (λ fault. journal_event unread.now ≡ Err fault) }
    ensures want { IfErr result (λ fault. fault ≢ ScheduleFault.OutOfMemory) }
    ensures lines { IfOk result (λ r. HasWholeLines r.0) }
    ensures text { IfOk result (λ r. r.1.text ≡ unread.now.text) }
{
    let section = read_section(unread, ScheduleCode::Event, b"journal ", 1_001)?;
    Ok((Planned::Journal(section.text), section.rest))
}

/// The node and the number of lines that a line tells which opens a revival: one line at least.
fn revival_of_line(line: &[u8]) -> Option<(u32, u32)>
    ensures value { result ≡ revival_of_line line.now }
    ensures within { IfSome result (λ n. (n.0 ≤ last_node) × (n.1 ≤ most_revival_lines)) }
{
    let (node, count) = two_behind(line, b"revive ", LAST_NODE, MOST_LINES)?;
    if count == 0 {
        None
    } else {
        Some((node, count))
    }
}

/// The revival that the next line opens, and what is left after its lines.
#[tactic(auto, unfolding(crate::specs::Schedules::revival_event))]
fn revival_event<'a>(unread: &Unread<'a>) -> Result<(Planned<'a>, Unread<'a>), ScheduleFault>
    ensures event { MatchResult result (λ r. revival_event unread.now ≡ Ok (planned_of r.0, r.1))
        (λ fault. revival_event unread.now ≡ Err fault) }
    ensures want { IfErr result (λ fault. fault ≢ ScheduleFault.OutOfMemory) }
    ensures lines { IfOk result (λ r. HasWholeLines r.0) }
    ensures text { IfOk result (λ r. r.1.text ≡ unread.now.text) }
{
    let line = unread.line();
    let (opening, below) = unread.first_line(ScheduleCode::Event)?;
    let Some((node, count)) = revival_of_line(opening) else {
        return Err(ScheduleFault::Refused {
            code: ScheduleCode::Event,
            line,
        });
    };
    let section = lines_below(&below, count, line)?;
    Ok((
        Planned::Revive {
            node: node as u8,
            text: section.text,
        },
        section.rest,
    ))
}

/// The next event, and what is left after it. Refused is the first fault by line. Never OutOfMemory.
#[tactic(auto, unfolding(crate::specs::Schedules::event_in))]
pub fn event_in<'a>(unread: &Unread<'a>) -> Result<(Planned<'a>, Unread<'a>), ScheduleFault>
    ensures event { MatchResult result (λ r. event_in unread.now ≡ Ok (planned_of r.0, r.1))
        (λ fault. event_in unread.now ≡ Err fault) }
    ensures want { IfErr result (λ fault. fault ≢ ScheduleFault.OutOfMemory) }
    ensures lines { IfOk result (λ r. HasWholeLines r.0) }
    ensures text { IfOk result (λ r. r.1.text ≡ unread.now.text) }
{
    if unread.begins_with(b"journal ") {
        journal_event(unread)
    } else if unread.begins_with(b"revive ") {
        revival_event(unread)
    } else {
        line_event(unread)
    }
}

/// The events of a text, of which this is not read, until nothing is left, and no more than `most`. The lines of each end
/// where what is left after it begins.
pub(crate) fn events_in<'a>(
    alloc: Global,
    text: &'a [u8],
    unread: Unread<'a>,
    most: usize,
) -> Result<Events<'a>, ScheduleFault>
    requires of { unread.text ≡ text.now }
    requires short { length unread.text ≤ most_input_bytes }
    ensures taken { IfOk result (λ events. events_in most unread.entry ≡ Ok events.planned) }
    ensures text { IfOk result (λ events. events.text ≡ text.now) }
    ensures refused { IfErr result
        (λ fault. fault ≢ ScheduleFault.OutOfMemory → events_in most unread.entry ≡ Err fault) }
{
    let mut packed = Vec::new(alloc);
    let mut here = unread;
    for _ in 0..most {
        if here.left().is_empty() {
            return Ok(Events::of(text, packed));
        }
        let (event, rest) = event_in(&here)?;
        let Ok(_) = packed.push(Packed::of(&event, rest.from())) else {
            return Err(ScheduleFault::OutOfMemory);
        };
        here = rest;
    }
    Ok(Events::of(text, packed))
}
