//! A whole schedule.

ghost use Rattle.std.specs.Prelude.{◌≡◌, ◌≢◌, ◌+◌, ◌≤◌, Ok, Err, IfOk, IfErr, IsOk, MatchResult, length};
ghost use Rattle.metering_model.specs.Limits.{most_agents, most_input_bytes, most_nodes};
ghost use Rattle.metering_model.specs.SheetRules.{IsSheet, IsIssuer};
ghost use Rattle.schedule_reader.specs.Schedules.{events_in, head_line, nodes_line, number_line, group_in, preamble_in, schedule_in};
ghost use Rattle.schedule_reader.specs.Forms.{IsRead};

use crate::events::events_in;
use crate::lines::nodes_behind;
use crate::packed::Events;
use byte_text::is_same;
use input_sections::{
    Issuer, ScheduleCode, ScheduleFault, Sheet, Unread, number_behind, read_issuer, read_sheet,
};
use std::alloc::Global;

/// A schedule: how many voters, observers and agents the group has, by what it charges, and what happens to it, in this
/// order.
#[derive(Drop)]
pub struct Schedule<'a> {
    /// At least 1, and with the observers at most 99.
    pub voters: u8,
    /// With the voters at most 99.
    pub observers: u8,
    /// From 1 to 64.
    pub agents: u8,
    pub sheet: Sheet,
    pub issuer: Issuer,
    /// What happens to the group, in order.
    pub events: Events<'a>,
}

/// What is left after the first line of a schedule.
#[tactic(auto, unfolding(crate::specs::Schedules::head_line))]
fn head_line<'a>(unread: &Unread<'a>) -> Result<Unread<'a>, ScheduleFault>
    ensures head { MatchResult result (λ rest. head_line unread.now ≡ Ok rest)
        (λ fault. head_line unread.now ≡ Err fault) }
    ensures want { IfErr result (λ fault. fault ≢ ScheduleFault.OutOfMemory) }
{
    let (line, rest) = unread.first_line(ScheduleCode::Head)?;
    if is_same(line, b"SCHEDULE 1") {
        Ok(rest)
    } else {
        Err(ScheduleFault::Refused {
            code: ScheduleCode::Head,
            line: unread.line(),
        })
    }
}

/// The number, from 1 to `most`, that the next line tells after the word, and what is left after it.
#[tactic(auto, unfolding(crate::specs::Schedules::number_line))]
fn number_line<'a>(
    unread: &Unread<'a>,
    code: ScheduleCode,
    word: &[u8],
    most: u32,
) -> Result<(u32, Unread<'a>), ScheduleFault>
    requires { most ≤ 1_000_000 }
    ensures number { MatchResult result
        (λ r. number_line code word.now most unread.now ≡ Ok (r.0, r.1))
        (λ fault. number_line code word.now most unread.now ≡ Err fault) }
    ensures within { IfOk result (λ r. r.0 ≤ most) }
    ensures want { IfErr result (λ fault. fault ≢ ScheduleFault.OutOfMemory) }
{
    let (line, rest) = unread.first_line(code)?;
    match number_behind(line, word, most) {
        Some(number) => Ok((number, rest)),
        None => Err(ScheduleFault::Refused {
            code,
            line: unread.line(),
        }),
    }
}

/// The voters and the observers that the next line tells, and what is left after it.
#[tactic(auto, unfolding(crate::specs::Schedules::nodes_line))]
fn nodes_line<'a>(unread: &Unread<'a>) -> Result<(u32, u32, Unread<'a>), ScheduleFault>
    ensures nodes { MatchResult result (λ r. nodes_line unread.now ≡ Ok (r.0, r.1, r.2))
        (λ fault. nodes_line unread.now ≡ Err fault) }
    ensures within { IfOk result (λ r. r.0 + r.1 ≤ most_nodes) }
    ensures want { IfErr result (λ fault. fault ≢ ScheduleFault.OutOfMemory) }
{
    let (line, rest) = unread.first_line(ScheduleCode::Nodes)?;
    match nodes_behind(line) {
        Some((voters, observers)) => Ok((voters, observers, rest)),
        None => Err(ScheduleFault::Refused {
            code: ScheduleCode::Nodes,
            line: unread.line(),
        }),
    }
}

/// How many voters, observers and agents a text tells above all else of its schedule, and what is left after the lines that say so.
/// Refused is the first fault of these by line. Never OutOfMemory.
#[tactic(auto, unfolding(crate::specs::Schedules::group_in))]
pub fn group_in<'a>(text: &'a [u8]) -> Result<(u8, u8, u8, Unread<'a>), ScheduleFault>
    ensures group { MatchResult result (λ r. group_in text.now ≡ Ok (r.0, r.1, r.2, r.3))
        (λ fault. group_in text.now ≡ Err fault) }
    ensures want { IfErr result (λ fault. fault ≢ ScheduleFault.OutOfMemory) }
{
    let whole = Unread::whole(text)?;
    let head = head_line(&whole)?;
    let (voters, observers, rest) = nodes_line(&head)?;
    let (agents, rest) = number_line(&rest, ScheduleCode::Agents, b"agents ", 64)?;
    Ok((voters as u8, observers as u8, agents as u8, rest))
}

/// What stands above the events of a schedule, and what is left after it: the events, of which none was read.
#[derive(Drop)]
pub struct Preamble<'a> {
    /// At least 1, and with the observers at most 99.
    pub voters: u8,
    /// With the voters at most 99.
    pub observers: u8,
    /// From 1 to 64.
    pub agents: u8,
    pub sheet: Sheet,
    pub issuer: Issuer,
    /// The events, which were not read.
    pub rest: Unread<'a>,
}

impl<'a> Preamble<'a> {
    /// Drops the sheet and the issuer. A crate above calls it in place of `drop`, for the prover's time alone (docs/DECISIONS.md).
    pub fn release(self) {
        let Preamble { sheet, issuer, .. } = self;
        sheet.release();
        issuer.release();
    }

    /// Reads what stands above the events of a schedule. Refused is the text's first fault by line. OutOfMemory comes
    /// only of a text whose numbers of nodes and agents are read.
    #[tactic(auto, unfolding(crate::specs::Schedules::preamble_in))]
    pub fn read(alloc: Global, text: &'a [u8]) -> Result<Preamble<'a>, ScheduleFault>
        ensures taken { IfOk result (λ p. preamble_in text.now
            ≡ Ok (record {
              voters = p.voters;
              observers = p.observers;
              agents = p.agents;
              sheet = p.sheet;
              issuer = p.issuer;
              rest = p.rest;
            })) }
        ensures refused { IfErr result
            (λ fault. fault ≢ ScheduleFault.OutOfMemory → preamble_in text.now ≡ Err fault) }
        ensures want { IfErr result
            (λ fault. fault ≡ ScheduleFault.OutOfMemory → IsOk (group_in text.now)) }
        ensures group { IfOk result
            (λ p. (1 ≤ p.voters) × (p.voters + p.observers ≤ most_nodes) × (1 ≤ p.agents)
            × (p.agents ≤ most_agents)) }
        ensures rules { IfOk result (λ p. IsSheet p.sheet × IsIssuer p.issuer) }
    {
        let (voters, observers, agents, unread) = group_in(text)?;
        let (sheet, unread) = read_sheet(alloc, &unread)?;
        let (issuer, rest) = match read_issuer(alloc, &unread) {
            Ok(read) => read,
            Err(fault) => {
                // Dropped by a call for the prover's time alone (docs/DECISIONS.md).
                sheet.release();
                return Err(fault);
            }
        };
        Ok(Preamble {
            voters,
            observers,
            agents,
            sheet,
            issuer,
            rest,
        })
    }
}

/// The events of a text, of which this is left. No text has more events than bytes.
fn all_events<'a>(
    alloc: Global,
    text: &'a [u8],
    rest: Unread<'a>,
) -> Result<Events<'a>, ScheduleFault>
    requires of { rest.text ≡ text.now }
    requires short { length rest.text ≤ most_input_bytes }
    ensures taken { IfOk result
        (λ events. events_in (length text.now) rest.entry ≡ Ok events.planned) }
    ensures text { IfOk result (λ events. events.text ≡ text.now) }
    ensures refused { IfErr result
        (λ fault. fault ≢ ScheduleFault.OutOfMemory → events_in (length text.now) rest.entry
        ≡ Err fault) }
{
    let events = events_in(alloc, text, rest, text.len())?;
    Ok(events)
}

impl<'a> Schedule<'a> {
    /// Drops the schedule. A crate above calls it in place of `drop`, for the prover's time alone (docs/DECISIONS.md).
    pub fn release(self) {
        let Schedule { sheet, issuer, .. } = self;
        sheet.release();
        issuer.release();
    }

    /// Reads the text of a schedule; journals are lent from it, and not read as batches.
    ///
    /// Refused is the first fault by line. OutOfMemory comes only of a text whose numbers of nodes and agents are read.
    pub fn read(alloc: Global, text: &'a [u8]) -> Result<Schedule<'a>, ScheduleFault>
        ensures taken { IfOk result (λ s. schedule_in text.now
            ≡ Ok (record {
              voters = s.voters;
              observers = s.observers;
              agents = s.agents;
              sheet = s.sheet;
              issuer = s.issuer;
              events = s.events.planned;
            })) }
        ensures refused { IfErr result
            (λ fault. fault ≢ ScheduleFault.OutOfMemory → schedule_in text.now ≡ Err fault) }
        ensures want { IfErr result
            (λ fault. fault ≡ ScheduleFault.OutOfMemory → IsOk (group_in text.now)) }
        ensures form { IfOk result (λ s. IsRead text.now
            (record {
              voters = s.voters;
              observers = s.observers;
              agents = s.agents;
              sheet = s.sheet;
              issuer = s.issuer;
              events = s.events.planned;
            })) }
        ensures text { IfOk result (λ s. s.events.text ≡ text.now) }
        ensures rules { IfOk result (λ s. IsSheet s.sheet × IsIssuer s.issuer) }
    {
        let above = Preamble::read(alloc, text)?;
        let Preamble {
            voters,
            observers,
            agents,
            sheet,
            issuer,
            rest,
        } = above;
        match all_events(alloc, text, rest) {
            Ok(events) => Ok(Schedule {
                voters,
                observers,
                agents,
                sheet,
                issuer,
                events,
            }),
            Err(fault) => {
                // Dropped by calls for the prover's time alone (docs/DECISIONS.md).
                issuer.release();
                sheet.release();
                Err(fault)
            }
        }
    }
}
