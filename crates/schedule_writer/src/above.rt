//! What stands above the events of a schedule: whether it is the group that was planned, by the sheet and the issuer of an input; and
//! a group by these.

ghost use Rattle.std.specs.Prelude.{◌≡◌, ◌+◌, ◌≤◌, IfOk, IfSome, Ok, codes};
ghost use Rattle.std.specs.Arc.{arc_value};
ghost use Rattle.metering_model.specs.Limits.{most_agents, most_nodes, most_sheet_lines};
ghost use Rattle.metering_model.specs.Sheet as model;
ghost use Rattle.metering_model.specs.World.{opening};
ghost use Rattle.input_sections.specs.Sections as sections;
ghost use Rattle.schedule_reader.specs.Schedules.{group_in, preamble_in};
ghost use Rattle.schedule_writer.specs.Inner.Walks.{HasSheet};

use crate::faults::Stop;
use crate::plans::Plan;
use byte_text::is_same;
use input_sections::{ScheduleCode, Section, Unread, read_issuer, read_section, read_sheet};
use price_sheet::{Issuer, Sheet};
use schedule_player::World;
use schedule_reader::group_in;
use std::alloc::{AllocError, Global};
use std::sync::Arc;

/// A sheet has no more lines than this.
const MOST_SHEET_LINES: u32 = 200_000;

/// What is left behind the lines of the nodes and the agents, where they tell of the group that was planned.
fn behind_group<'a>(plan: &Plan<'_>, text: &'a [u8]) -> Result<Unread<'a>, Stop>
    ensures { IfOk result (λ rest. group_in text.now
        ≡ Ok (plan.now.voters, plan.now.observers, plan.now.agents, rest)) }
{
    let Ok(group) = group_in(text) else {
        return Err(Stop::NotClosed);
    };
    let (voters, observers, agents, rest) = group;
    if voters == plan.voters && observers == plan.observers && agents == plan.agents {
        Ok(rest)
    } else {
        Err(Stop::NotClosed)
    }
}

/// The section of a sheet that stands next.
pub(crate) fn sheet_lines<'a>(unread: &Unread<'a>) -> Option<Section<'a>>
    ensures { IfSome result (λ s. sections.section_in ScheduleCode.Sheet (codes "sheet ")
        most_sheet_lines unread.now ≡ Ok (record { text = s.text.now; rest = s.rest })) }
{
    match read_section(unread, ScheduleCode::Sheet, b"sheet ", MOST_SHEET_LINES) {
        Ok(section) => Some(section),
        Err(_) => None,
    }
}

/// What is left behind a sheet whose lines are the same as those of a known one: it is that sheet, and is not read again.
fn behind_known<'a>(unread: &Unread<'a>, known: &Unread<'_>) -> Result<Unread<'a>, Stop>
    ensures { (sheet : model.Sheet) (behind : sections.Unread)
        → sections.sheet_section known.now ≡ Ok (sheet, behind)
        → IfOk result (λ rest. sections.sheet_section unread.now ≡ Ok (sheet, rest)) }
{
    let Some(those) = sheet_lines(known) else {
        return Err(Stop::NotClosed);
    };
    let Some(these) = sheet_lines(unread) else {
        return Err(Stop::NotClosed);
    };
    if is_same(these.text, those.text) {
        Ok(these.rest)
    } else {
        Err(Stop::NotClosed)
    }
}

/// What is left behind the sheet, where it is that of the input: it is known by its lines, and read where the input has none.
fn behind_sheet<'a>(
    alloc: Global,
    unread: &Unread<'a>,
    input: &[u8],
    sheet: &Sheet,
) -> Result<Unread<'a>, Stop>
    requires { HasSheet input.now sheet.now }
    ensures { IfOk result (λ rest. sections.sheet_section unread.now ≡ Ok (sheet.now, rest)) }
{
    let Ok(given) = Unread::whole(input) else {
        return Err(Stop::NotClosed);
    };
    if given.begins_with(b"sheet ") {
        return behind_known(unread, &given);
    }
    let (its_sheet, rest) = match read_sheet(alloc, unread) {
        Ok(read) => read,
        Err(fault) => return Err(Stop::of_section(fault)),
    };
    let is_sheet = its_sheet.same(sheet);
    // Dropped by a call for the prover's time alone (docs/DECISIONS.md).
    its_sheet.release();
    if is_sheet {
        Ok(rest)
    } else {
        Err(Stop::NotClosed)
    }
}

/// What is left behind the issuer, where it is that one.
fn behind_issuer<'a>(
    alloc: Global,
    unread: &Unread<'a>,
    issuer: &Issuer,
) -> Result<Unread<'a>, Stop>
    ensures { IfOk result (λ rest. sections.issuer_section unread.now ≡ Ok (issuer.now, rest)) }
{
    let (its_issuer, rest) = match read_issuer(alloc, unread) {
        Ok(read) => read,
        Err(fault) => return Err(Stop::of_section(fault)),
    };
    let is_issuer = its_issuer.same(issuer);
    // Dropped by a call for the prover's time alone (docs/DECISIONS.md).
    its_issuer.release();
    if is_issuer {
        Ok(rest)
    } else {
        Err(Stop::NotClosed)
    }
}

/// The events of a text, of which none is read, where what stands above them is of the group that was planned, by the sheet of the
/// input and this issuer.
pub(crate) fn events_below<'a>(
    alloc: Global,
    plan: &Plan<'_>,
    input: &[u8],
    issuer: &Issuer,
    text: &'a [u8],
) -> Result<Unread<'a>, Stop>
    requires { HasSheet input.now (arc_value plan.now.sheet.now) }
    ensures { IfOk result (λ rest. preamble_in text.now
        ≡ Ok (record {
          voters = plan.now.voters;
          observers = plan.now.observers;
          agents = plan.now.agents;
          sheet = arc_value plan.now.sheet.now;
          issuer = issuer.now;
          rest = rest;
        })) }
{
    let unread = behind_group(plan, text)?;
    let unread = behind_sheet(alloc, &unread, input, plan.sheet)?;
    behind_issuer(alloc, &unread, issuer)
}

/// A group in which nothing has happened, of 1 to 99 nodes, of which at least 1 votes, and 1 to 64 agents.
pub(crate) fn world_of(
    alloc: Global,
    voters: u8,
    observers: u8,
    agents: u8,
    sheet: &Arc<Sheet>,
    issuer: &Arc<Issuer>,
) -> Result<World, AllocError>
    requires nodes { (1 ≤ voters) × (voters + observers ≤ most_nodes) }
    requires agents { (1 ≤ agents) × (agents ≤ most_agents) }
    ensures { IfOk result (λ world. world
        ≡ opening voters observers agents (arc_value sheet.now) (arc_value issuer.now)) }
{
    let Ok(sheet) = Arc::try_clone(sheet) else {
        return Err(AllocError);
    };
    match Arc::try_clone(issuer) {
        Ok(issuer) => World::new(alloc, voters, observers, agents, sheet, issuer),
        Err(error) => Err(error),
    }
}
