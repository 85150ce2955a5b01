//! Pieces of an answer, written as lines of text.

ghost use Rattle.std.specs.Prelude.{◌≡◌, ◌≢◌, ◌∷◌, [], ◌++◌, None, codes, decimal, unwrap_or, OnOk};
ghost use Rattle.std.specs.Option.{option_copied, option_map};
ghost use Rattle.metering_model.specs.Transcript.{line, reply_text, with_number};
ghost use Rattle.metering_model.specs.Batch.{line_of_fields};
ghost use Rattle.metering_model.specs.World as world;
ghost use Rattle.group_events.specs.Batches.{batch_of};
ghost use Rattle.group_node.specs.Packets.{packet_of};
ghost use Rattle.log_text.specs.Increments.{increment_of};
ghost use Rattle.log_text.specs.LogText.{lines_of_increment, section_line};
ghost use Rattle.group_process.specs.Answers.{refusal_of};
ghost use Rattle.process_text.specs.Answers.{added_text, addressee, addressee_text, asker, lines_of_packet, packet_sent_text, process_refusal_text, refused_text};
ghost use Rattle.process_text.specs.Inner.Written.{given_text};

use answer_words::replies::{put_exported, put_kept, put_refused};
use byte_text::{line_count, put_numbered};
use export_file::{HeldText, LineRoom};
use group_events::{OwnedBatch, Period, Snapshot};
use group_node::Packet;
use group_process::ProcessRefusal;
use log_text::{Increment, put_increment};
use metering_model::Refusal;
use packet_text::put_packet;
use std::alloc::{AllocError, Global};

/// What is told where a batch was sent once more.
const SENT: &[u8] = b"sent\n";
/// What is told where what should be a packet is none of the group.
pub(crate) const FOREIGN: &[u8] = b"refused G16\n";
/// What is told where a line is no command.
pub(crate) const NO_COMMAND: &[u8] = b"refused L6\n";

/// From so many bytes on, of some 3,000 rows, a file stands behind the text of its answer. A smaller one is copied into that, so that
/// both are one write: it stands in memory twice then, and the room of its copy stays.
const MANY_BYTES: usize = 1_048_576;

// Each of these appends a piece of an answer. Where an allocation fails some of the piece may stand there.

/// Appends a word, a number, and a line feed.
pub(crate) fn put_line(text: &mut Vec<u8>, word: &[u8], number: u32) -> Result<(), AllocError>
    ensures { OnOk result
        (text.new.items ≡ text.old.items ++ line (with_number word.now number)) }
{
    // Most packets and increments have one line: a digit and the line feed go at once.
    if number < 10 {
        let Ok(()) = text.extend_from_slice(word) else {
            return Err(AllocError);
        };
        return text.extend_from_slice(&[b'0' + number as u8, b'\n']);
    }
    let Ok(()) = put_numbered(text, word, u128::from(number)) else {
        return Err(AllocError);
    };
    text.extend_from_slice(b"\n")
}

/// How many lines an increment has.
fn increment_lines(increment: &Increment<'_>) -> u32
    ensures { result ≡ lines_of_increment (increment_of increment.now) }
{
    match increment {
        Increment::Batch(batch) => 2 + u32::from(batch.view().count()),
        _ => 1,
    }
}

/// Appends what a log gets, if anything.
pub(crate) fn put_added(text: &mut Vec<u8>, added: Option<Increment<'_>>) -> Result<(), AllocError>
    ensures { OnOk result
        (text.new.items ≡ text.old.items ++ added_text (option_map increment_of added.entry)) }
{
    match added {
        Some(increment) => {
            let Ok(()) = put_line(text, b"kept ", increment_lines(&increment)) else {
                return Err(AllocError);
            };
            put_increment(text, &increment)
        }
        None => Ok(()),
    }
}

/// The voter that began the ballot which a packet asks for, where it does.
fn asker(voters: u8, packet: &Packet) -> Option<u32>
    requires { voters ≢ 0 }
    ensures { result ≡ asker voters (packet_of packet.now) }
{
    match packet {
        Packet::Prepare { ballot, .. } => Some(ballot.number() % u32::from(voters)),
        Packet::Accept { ballot, .. } => Some(ballot.number() % u32::from(voters)),
        _ => None,
    }
}

/// The one node that a packet is meant for, where it is.
pub(crate) fn addressee(voters: u8, taken: &Packet, sent: &Packet) -> Option<u32>
    requires { voters ≢ 0 }
    ensures { result ≡ addressee voters (packet_of taken.now) (packet_of sent.now) }
{
    match sent {
        Packet::Promise { .. } => asker(voters, taken),
        Packet::Decided { .. } => asker(voters, taken),
        _ => None,
    }
}

/// Appends for whom a packet is, and how many lines it has.
fn put_to(text: &mut Vec<u8>, to: Option<u32>, lines: u32) -> Result<(), AllocError>
    ensures { OnOk result (text.new.items ≡ text.old.items
        ++ section_line (codes "send " ++ addressee_text to ++ codes " ") lines) }
{
    match to {
        Some(node) => {
            let Ok(()) = put_numbered(text, b"send ", u128::from(node)) else {
                return Err(AllocError);
            };
            put_line(text, b" ", lines)
        }
        None => put_line(text, b"send all ", lines),
    }
}

/// Appends the line of a packet that carries a batch of so many lines.
fn put_batch_line(text: &mut Vec<u8>, group: &[u8], lines: u32) -> Result<(), AllocError>
    ensures { OnOk result (text.new.items ≡ text.old.items
        ++ line_of_fields (codes "P1" ∷ group.now ∷ codes "batch" ∷ decimal lines ∷ [])) }
{
    let Ok(()) = text.extend_from_slice(b"P1|") else {
        return Err(AllocError);
    };
    let Ok(()) = text.extend_from_slice(group) else {
        return Err(AllocError);
    };
    put_line(text, b"|batch|", lines)
}

/// Appends a batch as a packet of the group, which is for all.
pub(crate) fn put_batch(
    text: &mut Vec<u8>,
    group: &[u8],
    batch: &OwnedBatch,
) -> Result<(), AllocError>
    ensures { OnOk result (text.new.items ≡ text.old.items
        ++ packet_sent_text group.now None (world.CarriesBatch (batch_of batch.now))) }
{
    let lines = 1 + u32::from(batch.view().count());
    let Ok(()) = put_to(text, None, 1 + lines) else {
        return Err(AllocError);
    };
    let Ok(()) = put_batch_line(text, group, lines) else {
        return Err(AllocError);
    };
    text.extend_from_slice(batch.bytes())
}

/// How many lines a packet has.
fn packet_lines(packet: &Packet) -> u32
    ensures { result ≡ lines_of_packet (packet_of packet.now) }
{
    match packet {
        Packet::Batch(batch) => 2 + u32::from(batch.view().count()),
        _ => 1,
    }
}

/// Appends a packet of the group, and for whom it is.
pub(crate) fn put_sent(
    text: &mut Vec<u8>,
    group: &[u8],
    to: Option<u32>,
    packet: &Packet,
) -> Result<(), AllocError>
    ensures { OnOk result (text.new.items
        ≡ text.old.items ++ packet_sent_text group.now to (packet_of packet.now)) }
{
    let Ok(()) = put_to(text, to, packet_lines(packet)) else {
        return Err(AllocError);
    };
    put_packet(text, group, packet)
}

/// Ends a line, and appends what stands below it.
fn put_below(text: &mut Vec<u8>, below: &[u8]) -> Result<(), AllocError>
    ensures { OnOk result (text.new.items ≡ text.old.items ++ (codes "\n" ++ below.now)) }
{
    let Ok(()) = text.extend_from_slice(b"\n") else {
        return Err(AllocError);
    };
    text.extend_from_slice(below)
}

/// Appends the line above a file: its period, and how many lines it has.
fn put_above(text: &mut Vec<u8>, period: Period, lines: usize) -> Result<(), AllocError>
    ensures { OnOk result (text.new.items ≡ text.old.items
        ++ line (with_number (codes "exported period ") period
        ++ with_number (codes " lines ") lines)) }
{
    let Ok(()) = put_exported(text, period, lines) else {
        return Err(AllocError);
    };
    text.extend_from_slice(b"\n")
}

/// Appends a file, and above it its period and how many lines it has; but a great file is what stands behind the text then.
pub(crate) fn put_file(
    alloc: Global,
    text: &mut Vec<u8>,
    file: &mut Option<HeldText>,
    snapshot: &Snapshot,
) -> Result<(), AllocError>
    requires { file.old ≡ None }
    ensures { OnOk result (text.new.items ++ unwrap_or file.new []
        ≡ text.old.items ++ reply_text (world.Exported snapshot.now)) }
{
    let mut held = HeldText::new(alloc);
    let Ok(lines) = held.set_file(alloc, &mut LineRoom::new(), snapshot) else {
        return Err(AllocError);
    };
    let Ok(()) = put_above(text, snapshot.period(), lines) else {
        return Err(AllocError);
    };
    if held.has_bytes(MANY_BYTES) {
        *file = Some(held);
        return Ok(());
    }
    held.copy_to(text)
}

/// Appends a kept text, and above it how many lines it has.
pub(crate) fn put_kept_text(text: &mut Vec<u8>, kept: &[u8]) -> Result<(), AllocError>
    ensures { OnOk result
        (text.new.items ≡ text.old.items ++ reply_text (world.KeptText kept.now)) }
{
    let Ok(()) = put_kept(text, line_count(kept)) else {
        return Err(AllocError);
    };
    put_below(text, kept)
}

/// Appends why a process does not do what it is asked.
pub(crate) fn put_refusal(text: &mut Vec<u8>, why: ProcessRefusal) -> Result<(), AllocError>
    ensures { OnOk result (text.new.items
        ≡ text.old.items ++ refused_text (process_refusal_text (refusal_of why))) }
{
    match why {
        ProcessRefusal::OfModel(refusal) => {
            let Ok(()) = put_refused(text, refusal) else {
                return Err(AllocError);
            };
            text.extend_from_slice(b"\n")
        }
        ProcessRefusal::Unfit => text.extend_from_slice(b"refused G17\n"),
    }
}

/// Appends a batch that is held, which is sent once more, or that it is missing.
pub(crate) fn put_given(
    text: &mut Vec<u8>,
    group: &[u8],
    held: Option<&OwnedBatch>,
    agent: u8,
    seq: u32,
) -> Result<(), AllocError>
    ensures { OnOk result (text.new.items ≡ text.old.items
        ++ given_text group.now (option_map batch_of (option_copied held.entry)) agent seq) }
{
    match held {
        Some(batch) => {
            let Ok(()) = put_batch(text, group, batch) else {
                return Err(AllocError);
            };
            text.extend_from_slice(SENT)
        }
        None => put_refusal(
            text,
            ProcessRefusal::OfModel(Refusal::Missing { agent, seq }),
        ),
    }
}
