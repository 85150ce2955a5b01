//! What a node and an agent are asked: a line, and the lines that it says to be below it.

ghost use Rattle.std.specs.Prelude.{◌≡◌, ℕ, ◌≤◌, List, codes, IfOk, IfSome};
ghost use Rattle.metering_model.specs.Limits.{most_journal_lines};
ghost use Rattle.metering_model.specs.World as world;
ghost use Rattle.input_sections.specs.Sections.{number_behind};
ghost use Rattle.group_events.specs.Events.{offer_of};
ghost use Rattle.process_text.specs.Requests.{agent_request, most_packet_lines, node_request, period_behind, place_behind, place_in};
ghost use Rattle.process_text.specs.Inner.Read.{agent_request_of, node_request_of};

use byte_text::{find_byte, is_same, read_whole};
use group_events::Offer;
use input_sections::{behind_word, number_behind};
use std::alloc::{AllocError, Global};

/// The greatest packet has so many lines: one above a batch, and those of the greatest batch.
const MOST_PACKET_LINES: u32 = 1_002;
/// A batch has no more lines.
const MOST_JOURNAL_LINES: u32 = 1_001;
/// An agent gives its batches no higher sequence.
const LAST_SEQUENCE: u32 = 1_000_000;

/// What a node is asked.
#[derive(Drop)]
pub(crate) enum NodeRequest {
    /// To take the packet that stands below.
    Packet,
    /// To begin a ballot.
    Begin,
    /// To export the period of that number.
    Export(u16),
    /// To tell what it keeps.
    Keep,
    /// To send a batch that it holds once more.
    Give { agent: u8, seq: u32 },
    /// The line is no command.
    NoCommand,
}

/// What an agent is asked.
#[derive(Drop)]
pub(crate) enum AgentRequest {
    /// To journal the batch that stands below.
    Journal,
    /// To tell what it keeps.
    Keep,
    /// To send the batch of that sequence once more.
    Again(u32),
    /// The line is no command.
    NoCommand,
}

/// How many lines a line says to be below it where it hands a packet to a node, else None.
pub(crate) fn packet_lines(line: &[u8]) -> Option<u32>
    ensures value { result ≡ number_behind (codes "packet ") most_packet_lines line.now }
    ensures most { IfSome result (λ lines. lines ≤ most_packet_lines) }
{
    number_behind(line, b"packet ", MOST_PACKET_LINES)
}

/// How many lines a line says to be below it where it hands a batch to an agent, else None.
pub(crate) fn journal_lines(line: &[u8]) -> Option<u32>
    ensures value { result ≡ number_behind (codes "journal ") most_journal_lines line.now }
    ensures most { IfSome result (λ lines. lines ≤ most_journal_lines) }
{
    number_behind(line, b"journal ", MOST_JOURNAL_LINES)
}

/// The period that is to be exported.
fn read_period(line: &[u8]) -> Option<u16>
    ensures { result ≡ period_behind line.now }
{
    let Some(number) = behind_word(line, b"export ") else {
        return None;
    };
    match read_whole(number, 0, 1_199) {
        Some(period) => Some(period as u16),
        None => None,
    }
}

/// An agent's number and a sequence, parted by a space.
fn read_place(text: &[u8]) -> Option<(u8, u32)>
    ensures { result ≡ place_in text.now }
{
    let Some(space) = find_byte(text, b' ') else {
        return None;
    };
    let Some(agent) = read_whole(&text[..space], 1, 64) else {
        return None;
    };
    let Some(seq) = read_whole(&text[space + 1..], 1, LAST_SEQUENCE) else {
        return None;
    };
    Some((agent as u8, seq))
}

/// Whose batch, and which, is to be sent once more.
fn read_given(line: &[u8]) -> Option<(u8, u32)>
    ensures { result ≡ place_behind line.now }
{
    let Some(place) = behind_word(line, b"give ") else {
        return None;
    };
    read_place(place)
}

/// What a node is asked by a line, whatever stands below it.
pub(crate) fn node_request(line: &[u8]) -> NodeRequest
    ensures { (below : List ℕ) → node_request_of below result ≡ node_request line.now below }
{
    if packet_lines(line).is_some() {
        return NodeRequest::Packet;
    }
    if is_same(line, b"start") {
        return NodeRequest::Begin;
    }
    if is_same(line, b"keep") {
        return NodeRequest::Keep;
    }
    if let Some(period) = read_period(line) {
        return NodeRequest::Export(period);
    }
    match read_given(line) {
        Some((agent, seq)) => NodeRequest::Give { agent, seq },
        None => NodeRequest::NoCommand,
    }
}

/// What an agent is asked by a line, whatever stands below it.
pub(crate) fn agent_request(line: &[u8]) -> AgentRequest
    ensures { (below : List ℕ) → agent_request_of below result ≡ agent_request line.now below }
{
    if journal_lines(line).is_some() {
        return AgentRequest::Journal;
    }
    if is_same(line, b"keep") {
        return AgentRequest::Keep;
    }
    match number_behind(line, b"again ", LAST_SEQUENCE) {
        Some(seq) => AgentRequest::Again(seq),
        None => AgentRequest::NoCommand,
    }
}

/// What the bytes of a batch hand in: they are copied once, and the copy is read once and kept.
pub(crate) fn read_offer(alloc: Global, text: &[u8]) -> Result<Offer, AllocError>
    ensures { IfOk result (λ offer. offer_of offer ≡ world.offer_of text.now) }
{
    let Ok(bytes) = Vec::from_slice(alloc, text) else {
        return Err(AllocError);
    };
    Offer::read(alloc, bytes)
}
