//! Packets, read from their text.

ghost use Rattle.std.specs.Prelude.{◌≡◌, ℕ, ◌≤◌, List, [], ◌∷◌, length, None, Some, Ok, IfErr, IfOk, IfSome, IsTrue, MatchOption, MatchResult, OnErr, codes};
ghost use Rattle.std.specs.Arc.{arc_value};
ghost use Rattle.std.specs.Option.{option_map};
ghost use Rattle.std.specs.Result.{result_ok};
ghost use Rattle.metering_model.specs.BatchReading.{batch_in, fields_in, whole_in};
ghost use Rattle.metering_model.specs.Limits.{most_journal_lines};
ghost use Rattle.batch_view.specs.Batches.{batch_of};
ghost use Rattle.group_node.specs.Packets.{packet_of};
ghost use Rattle.packet_text.specs.PacketText.{HasPacketText, accept_in, accepted_in, batch_packet_in, decided_in, is_stored_word, line_packet_in, may_take_memory, packet_in, prepare_in, promise_in, sent_cut_in, sent_vote_in, some_vote_in, word_packet_in};
ghost use Rattle.packet_text.specs.Inner.Heads.{HasHead, HasNoHead};
ghost use Rattle.packet_text.specs.Inner.Numbers.{numbers_in, sent_in};
ghost use Rattle.packet_text.specs.Inner.Unread.{IfNoMemory, IfNoPacket};

use crate::numbers::{count_fields, is_group, read_ballot, read_lines, read_node, read_period};
use crate::packets::GroupPacket;
use batch_view::{Offer, OwnedBatch};
use byte_text::{first_line, is_same, split_at_bar};
use group_node::Packet;
use paxos_ballot::{Ballot, Vote};
use period_cut::{Cut, Period};
use std::alloc::{AllocError, Global};
use std::sync::Arc;

/// A batch has no more bytes.
const MOST_BATCH_BYTES: usize = 65_536;

/// Why nothing is read.
#[derive(Clone, Copy, Drop)]
enum Unread {
    /// The text is none of a packet.
    NoPacket,
    /// Out of memory.
    NoMemory,
}

/// Two fields, and what stands behind them.
#[derive(Clone, Copy)]
struct Two<'a> {
    first: &'a [u8],
    second: &'a [u8],
    rest: &'a [u8],
}

/// The first two fields, if others stand behind them.
fn two_fields(fields: &[u8]) -> Option<Two<'_>>
    ensures { MatchOption result
        (length (fields_in fields.now) ≤ 2)
        (λ two. fields_in fields.now ≡ two.first.now ∷ two.second.now ∷ fields_in two.rest.now) }
{
    let Some((first, behind)) = split_at_bar(fields) else {
        return None;
    };
    match split_at_bar(behind) {
        Some((second, rest)) => Some(Two {
            first,
            second,
            rest,
        }),
        None => None,
    }
}

/// The cut of as many agents as there are fields.
fn read_cut(alloc: Global, fields: &[u8]) -> Result<Arc<Cut>, Unread>
    ensures { MatchResult result
        (λ cut. sent_cut_in (fields_in fields.now) ≡ Some (arc_value cut))
        (λ why. IfNoPacket why (sent_cut_in (fields_in fields.now) ≡ None)) }
{
    let Some(agents) = count_fields(fields) else {
        return Err(Unread::NoPacket);
    };
    match Cut::read_shared(alloc, fields, agents) {
        Ok(Some(cut)) => Ok(cut),
        Ok(None) => Err(Unread::NoPacket),
        Err(_) => Err(Unread::NoMemory),
    }
}

/// A vote from its ballot and its cut.
fn read_some_vote(alloc: Global, ballot: &[u8], cut: &[u8]) -> Result<Vote, Unread>
    ensures { MatchResult result
        (λ vote. some_vote_in ballot.now (fields_in cut.now) ≡ Some vote)
        (λ why. IfNoPacket why (some_vote_in ballot.now (fields_in cut.now) ≡ None)) }
{
    let Some(ballot) = read_ballot(ballot) else {
        return Err(Unread::NoPacket);
    };
    match read_cut(alloc, cut) {
        Ok(cut) => Ok(Vote { ballot, cut }),
        Err(why) => Err(why),
    }
}

/// The vote that a promise tells, if it tells one.
fn read_vote(alloc: Global, fields: &[u8]) -> Result<Option<Vote>, Unread>
    ensures { MatchResult result
        (λ vote. sent_vote_in (fields_in fields.now) ≡ Some vote)
        (λ why. IfNoPacket why (sent_vote_in (fields_in fields.now) ≡ None)) }
{
    match split_at_bar(fields) {
        Some((ballot, cut)) => match read_some_vote(alloc, ballot, cut) {
            Ok(vote) => Ok(Some(vote)),
            Err(why) => Err(why),
        },
        None if is_same(fields, b"0") => Ok(None),
        None => Err(Unread::NoPacket),
    }
}

/// A Prepare from its numbers.
fn read_prepare(numbers: &[u8]) -> Option<Packet>
    ensures { option_map packet_of result ≡ prepare_in (fields_in numbers.now) }
{
    let Some((period, ballot)) = split_at_bar(numbers) else {
        return None;
    };
    if split_at_bar(ballot).is_some() {
        return None;
    }
    let Some(period) = read_period(period) else {
        return None;
    };
    match read_ballot(ballot) {
        Some(ballot) => Some(Packet::Prepare { period, ballot }),
        None => None,
    }
}

/// The period and the ballot of a packet, and the fields behind them.
#[derive(Clone, Copy)]
struct Numbered<'a> {
    period: Period,
    ballot: Ballot,
    rest: &'a [u8],
}

/// Period and ballot, if other fields stand behind them.
fn read_numbered(fields: &[u8]) -> Option<Numbered<'_>>
    ensures { MatchOption result
        (numbers_in (fields_in fields.now) ≡ None)
        (λ n. numbers_in (fields_in fields.now)
        ≡ Some (record { period = n.period; ballot = n.ballot; rest = fields_in n.rest.now })) }
{
    let Some(two) = two_fields(fields) else {
        return None;
    };
    let Some(period) = read_period(two.first) else {
        return None;
    };
    match read_ballot(two.second) {
        Some(ballot) => Some(Numbered {
            period,
            ballot,
            rest: two.rest,
        }),
        None => None,
    }
}

/// The node that sends a packet, its period and its ballot, and the fields behind them.
#[derive(Clone, Copy)]
struct Sent<'a> {
    from: u8,
    numbered: Numbered<'a>,
}

/// Node, period and ballot, if other fields stand behind them.
fn read_sent(fields: &[u8]) -> Option<Sent<'_>>
    ensures { MatchOption result
        (sent_in (fields_in fields.now) ≡ None)
        (λ s. sent_in (fields_in fields.now) ≡ Some (record {
          from = s.from;
          numbers = record {
            period = s.numbered.period;
            ballot = s.numbered.ballot;
            rest = fields_in s.numbered.rest.now;
          };
        })) }
{
    let Some((from, rest)) = split_at_bar(fields) else {
        return None;
    };
    let Some(from) = read_node(from) else {
        return None;
    };
    match read_numbered(rest) {
        Some(numbered) => Some(Sent { from, numbered }),
        None => None,
    }
}

/// A Promise from its numbers and its vote.
fn read_promise(alloc: Global, numbers: &[u8]) -> Result<Packet, Unread>
    ensures { MatchResult result
        (λ packet. promise_in (fields_in numbers.now) ≡ Some (packet_of packet))
        (λ why. IfNoPacket why (promise_in (fields_in numbers.now) ≡ None)) }
{
    let Some(sent) = read_sent(numbers) else {
        return Err(Unread::NoPacket);
    };
    match read_vote(alloc, sent.numbered.rest) {
        Ok(vote) => Ok(Packet::Promise {
            from: sent.from,
            period: sent.numbered.period,
            ballot: sent.numbered.ballot,
            vote,
        }),
        Err(why) => Err(why),
    }
}

/// An Accept from its numbers and its cut.
fn read_accept(alloc: Global, numbers: &[u8]) -> Result<Packet, Unread>
    ensures { MatchResult result
        (λ packet. accept_in (fields_in numbers.now) ≡ Some (packet_of packet))
        (λ why. IfNoPacket why (accept_in (fields_in numbers.now) ≡ None)) }
{
    let Some(numbered) = read_numbered(numbers) else {
        return Err(Unread::NoPacket);
    };
    match read_cut(alloc, numbered.rest) {
        Ok(cut) => Ok(Packet::Accept {
            period: numbered.period,
            ballot: numbered.ballot,
            cut,
        }),
        Err(why) => Err(why),
    }
}

/// An Accepted from its numbers and its cut.
fn read_accepted(alloc: Global, numbers: &[u8]) -> Result<Packet, Unread>
    ensures { MatchResult result
        (λ packet. accepted_in (fields_in numbers.now) ≡ Some (packet_of packet))
        (λ why. IfNoPacket why (accepted_in (fields_in numbers.now) ≡ None)) }
{
    let Some(sent) = read_sent(numbers) else {
        return Err(Unread::NoPacket);
    };
    match read_cut(alloc, sent.numbered.rest) {
        Ok(cut) => Ok(Packet::Accepted {
            from: sent.from,
            period: sent.numbered.period,
            ballot: sent.numbered.ballot,
            cut,
        }),
        Err(why) => Err(why),
    }
}

/// A Decided from its period and its cut.
fn read_decided(alloc: Global, numbers: &[u8]) -> Result<Packet, Unread>
    ensures { MatchResult result
        (λ packet. decided_in (fields_in numbers.now) ≡ Some (packet_of packet))
        (λ why. IfNoPacket why (decided_in (fields_in numbers.now) ≡ None)) }
{
    let Some((period, cut)) = split_at_bar(numbers) else {
        return Err(Unread::NoPacket);
    };
    let Some(period) = read_period(period) else {
        return Err(Unread::NoPacket);
    };
    match read_cut(alloc, cut) {
        Ok(cut) => Ok(Packet::Decided { period, cut }),
        Err(why) => Err(why),
    }
}

/// The packet of that word that is one line.
fn read_line_packet(alloc: Global, word: &[u8], numbers: &[u8]) -> Result<Packet, Unread>
    ensures read { MatchResult result
        (λ packet. line_packet_in word.now (fields_in numbers.now) ≡ Some (packet_of packet))
        (λ why. IfNoPacket why (line_packet_in word.now (fields_in numbers.now) ≡ None)) }
    ensures want { IfErr result (λ why. IfNoMemory why (IsTrue (is_stored_word word.now))) }
{
    if is_same(word, b"prepare") {
        return read_prepare(numbers).ok_or(Unread::NoPacket);
    }
    if is_same(word, b"promise") {
        return read_promise(alloc, numbers);
    }
    if is_same(word, b"accept") {
        return read_accept(alloc, numbers);
    }
    if is_same(word, b"accepted") {
        return read_accepted(alloc, numbers);
    }
    if is_same(word, b"decided") {
        return read_decided(alloc, numbers);
    }
    Err(Unread::NoPacket)
}

/// The batch that these bytes are. They are copied once.
fn read_batch(alloc: Global, bytes: &[u8]) -> Result<Arc<OwnedBatch>, Unread>
    ensures { MatchResult result
        (λ batch. (arc_value batch ≡ bytes.now) × (batch_in bytes.now ≡ Ok (batch_of bytes.now)))
        (λ why. IfNoPacket why (result_ok (batch_in bytes.now) ≡ None)) }
{
    if bytes.len() > MOST_BATCH_BYTES {
        return Err(Unread::NoPacket);
    }
    let Ok(copied) = Vec::from_slice(alloc, bytes) else {
        return Err(Unread::NoMemory);
    };
    match Offer::read(alloc, copied) {
        Ok(Offer::Good(batch)) => Ok(batch),
        Ok(Offer::Bad(_)) => Err(Unread::NoPacket),
        Err(_) => Err(Unread::NoMemory),
    }
}

/// How many lines are said to follow, if nothing else is said.
fn read_count(numbers: &[u8]) -> Option<u16>
    ensures { MatchOption result
        ((below : List ℕ) → batch_packet_in (fields_in numbers.now) below ≡ None)
        (λ lines. (fields_in numbers.now ≡ numbers.now ∷ [])
        × (whole_in 1 most_journal_lines numbers.now ≡ Some lines)) }
{
    if split_at_bar(numbers).is_some() {
        return None;
    }
    read_lines(numbers)
}

/// The batch that stands below its line, which says how many lines it has.
fn read_batch_packet(alloc: Global, numbers: &[u8], below: &[u8]) -> Result<Packet, Unread>
    ensures { MatchResult result
        (λ packet. batch_packet_in (fields_in numbers.now) below.now ≡ Some (packet_of packet))
        (λ why. IfNoPacket why (batch_packet_in (fields_in numbers.now) below.now ≡ None)) }
{
    let Some(lines) = read_count(numbers) else {
        return Err(Unread::NoPacket);
    };
    let batch = match read_batch(alloc, below) {
        Ok(batch) => batch,
        Err(why) => return Err(why),
    };
    if lines != 1 + batch.view().count() {
        return Err(Unread::NoPacket);
    }
    Ok(Packet::Batch(batch))
}

/// The packet of that word, with this below its line.
fn read_word_packet(
    alloc: Global,
    word: &[u8],
    numbers: &[u8],
    below: &[u8],
) -> Result<Packet, Unread>
    ensures read { MatchResult result
        (λ packet. word_packet_in word.now (fields_in numbers.now) below.now
        ≡ Some (packet_of packet))
        (λ why. IfNoPacket why (word_packet_in word.now (fields_in numbers.now) below.now ≡ None)) }
    ensures want { IfErr result (λ why. IfNoMemory why (IsTrue (is_stored_word word.now))) }
{
    if is_same(word, b"batch") {
        return read_batch_packet(alloc, numbers, below);
    }
    if !below.is_empty() {
        return Err(Unread::NoPacket);
    }
    read_line_packet(alloc, word, numbers)
}

/// The group's name, the packet's word, and its numbers.
#[derive(Clone, Copy)]
struct Head<'a> {
    name: &'a [u8],
    word: &'a [u8],
    numbers: &'a [u8],
}

/// What stands behind the name of the format and its bar, where a line begins so.
fn behind_format(line: &[u8]) -> Option<&[u8]>
    ensures { MatchOption result
        (HasNoHead (fields_in line.now))
        (λ rest. fields_in line.now ≡ codes "P1" ∷ fields_in rest.now) }
{
    // Each packet begins so: its first bar is not looked for.
    if line.len() > 3 && is_same(&line[..3], b"P1|") {
        return Some(&line[3..]);
    }
    let Some((version, rest)) = split_at_bar(line) else {
        return None;
    };
    if is_same(version, b"P1") {
        Some(rest)
    } else {
        None
    }
}

/// The head of a packet's line, if it is of the format, and the name may be a group's.
fn read_head(line: &[u8]) -> Option<Head<'_>>
    ensures { MatchOption result
        (HasNoHead (fields_in line.now))
        (λ head. HasHead (fields_in line.now) head.name.now head.word.now
        (fields_in head.numbers.now)) }
{
    let Some(rest) = behind_format(line) else {
        return None;
    };
    let Some(two) = two_fields(rest) else {
        return None;
    };
    if !is_group(two.first) {
        return None;
    }
    Some(Head {
        name: two.first,
        word: two.second,
        numbers: two.rest,
    })
}

/// The packet whose text this is, with the name of its group; `None` where the text is not just that of one. An error
/// is an allocation failure, and comes only of a text that begins as a packet other than a Prepare.
pub fn read_packet<'a>(alloc: Global, text: &'a [u8]) -> Result<Option<GroupPacket<'a>>, AllocError>
    ensures read { IfOk result (λ read. read ≡ packet_in text.now) }
    ensures limits { IfOk result (λ read. IfSome read (λ p. HasPacketText p.group p.packet)) }
    ensures want { OnErr result (IsTrue (may_take_memory text.now)) }
{
    let Some((line, below)) = first_line(text) else {
        return Ok(None);
    };
    let Some(head) = read_head(line) else {
        return Ok(None);
    };
    match read_word_packet(alloc, head.word, head.numbers, below) {
        Ok(packet) => Ok(Some(GroupPacket::of(head.name, packet))),
        Err(why) => match why {
            Unread::NoPacket => Ok(None),
            Unread::NoMemory => Err(AllocError),
        },
    }
}
