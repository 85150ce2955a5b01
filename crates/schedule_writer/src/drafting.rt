//! What a schedule tells to happen: batches are journaled, and periods are closed.

ghost use Rattle.std.specs.Prelude.{◌≤◌};
ghost use Rattle.metering_model.specs.Limits.{last_period};

use crate::above::sheet_lines;
use crate::drafts::Draft;
use crate::faults::Stop;
use crate::plans::Plan;
use byte_text::line_count;
use input_sections::Unread;
use std::alloc::Global;

/// A sheet without rows, as it is taken where the input has none.
const EMPTY_SHEET: &[u8] = b"sheet 1\nbase = \"2025-01\"\n";

/// The sample issuer, as it is taken where the input has none.
const SAMPLE_ISSUER: &[u8] =
    b"issuer 7\nprovider = \"Sample Cloud\"\npublisher = \"Sample Cloud\"\nissuer = \"Sample Cloud Ltd\"\naccount_id = \"A-100\"\naccount_name = \"Payer\"\ncurrency = \"USD\"\nother_service = \"Billing\"\n";

/// Where the sheet's section ends, if the input begins with one.
fn sheet_end(input: &[u8]) -> Option<usize> {
    let Ok(unread) = Unread::whole(input) else {
        return None;
    };
    if !unread.begins_with(b"sheet ") {
        return Some(0);
    }
    match sheet_lines(&unread) {
        Some(section) => Some(section.rest.from()),
        None => None,
    }
}

/// Appends the bytes of the input from one on to another, which are a section, or where there are none what is taken in its place.
fn put_section(draft: &mut Draft, input: &[u8], from: usize, to: usize, else_taken: &[u8]) {
    let Some(section) = input.get(from..to) else {
        draft.give_up(Stop::NotClosed);
        return;
    };
    match section {
        [] => draft.put(else_taken),
        _ => draft.put(section),
    }
}

/// Appends what stands above the events: the head, the lines of the nodes and the agents, and both sections of the input.
fn put_above(draft: &mut Draft, plan: &Plan<'_>, input: &[u8], batch_from: usize) {
    draft.put(b"SCHEDULE 1\n");
    let observers = if plan.observers > 0 {
        Some(u32::from(plan.observers))
    } else {
        None
    };
    draft.put_line(
        b"nodes ",
        u128::from(plan.voters),
        b" observers ",
        observers,
    );
    draft.put_line(b"agents ", u128::from(plan.agents), b"", None);
    match sheet_end(input) {
        Some(end) => {
            put_section(draft, input, 0, end, EMPTY_SHEET);
            put_section(draft, input, end, batch_from, SAMPLE_ISSUER);
        }
        None => draft.give_up(Stop::NotClosed),
    }
}

/// Appends that a batch is journaled, and reaches all nodes.
fn put_batch(draft: &mut Draft, nodes: u8, text: &[u8]) {
    let packet = draft.packet();
    draft.put_line(b"journal ", line_count(text) as u128, b"", None);
    draft.put(text);
    draft.deliver_to(packet, 0, nodes);
}

/// Appends that each of the first nodes takes a packet and answers it by one that reaches node 0.
fn put_round(draft: &mut Draft, packet: u32, many: u8) {
    draft.deliver_to(packet, 0, many);
    for _ in 0..many {
        let answer = draft.packet();
        draft.deliver(answer, 0);
    }
}

/// Appends one ballot: node 0 asks a majority, proposes, and tells all others what was decided.
fn put_ballot(draft: &mut Draft, voters: u8, nodes: u8) {
    let many = voters / 2 + 1;
    let prepare = draft.packet();
    draft.put_line(b"start ", 0, b"", None);
    put_round(draft, prepare, many);
    let accept = draft.packet();
    put_round(draft, accept, many);
    // Who has learned a cut sends it to whoever asks for that period.
    draft.deliver(accept, 0);
    let decided = draft.packet();
    draft.deliver_to(decided, 1, nodes);
}

/// Appends that a period is closed, and that each node shows its file.
fn put_closed(draft: &mut Draft, voters: u8, nodes: u8, period: u16) {
    put_ballot(draft, voters, nodes);
    for node in 0..nodes {
        draft.put_line(b"export ", u128::from(node), b" ", Some(u32::from(period)));
    }
}

/// Appends that the batches from one on to another are journaled.
fn put_those(draft: &mut Draft, plan: &Plan<'_>, from: usize, to: usize) {
    let Some(batches) = plan.batches.get(from..to) else {
        draft.give_up(Stop::NotClosed);
        return;
    };
    for taken in batches {
        if draft.has_stopped() {
            return;
        }
        put_batch(draft, plan.nodes, taken.batch.bytes());
    }
}

/// Appends all that happens: before each period is closed the batches above it are journaled, and those that are left at the end.
fn put_events(draft: &mut Draft, plan: &Plan<'_>)
    requires { plan.now.last ≤ last_period }
{
    let mut journaled = 0;
    for period in 0..plan.last + 1 {
        let due = plan.due_before(period);
        put_those(draft, plan, journaled, due);
        put_closed(draft, plan.voters, plan.nodes, period);
        journaled = due;
    }
    put_those(draft, plan, journaled, plan.batches.len());
}

/// The text of a schedule.
pub(crate) fn schedule_for(
    alloc: Global,
    plan: &Plan<'_>,
    input: &[u8],
    batch_from: usize,
) -> Result<Vec<u8>, Stop>
    requires { plan.now.last ≤ last_period }
{
    let mut draft = Draft::new(alloc);
    put_above(&mut draft, plan, input, batch_from);
    put_events(&mut draft, plan);
    draft.finish()
}
