//! Packets, written as text.

ghost use Rattle.std.specs.Prelude.{◌≡◌, [], ◌∷◌, ◌++◌, codes, decimal, map, OnErr, OnOk};
ghost use Rattle.std.specs.Option.{option_copied};
ghost use Rattle.batch_view.specs.Batches.{batch_of};
ghost use Rattle.group_node.specs.Packets.{packet_of};
ghost use Rattle.packet_text.specs.PacketText.{lines_of_batch, packet_fields, packet_text, text_below, vote_fields};
ghost use Rattle.packet_text.specs.Inner.Pieces.{Puts, barred};

use batch_view::OwnedBatch;
use byte_text::put_numbered;
use group_node::Packet;
use paxos_ballot::{Ballot, Vote};
use period_cut::{Cut, Period};
use std::alloc::AllocError;

// Each of these appends a piece of a packet's text. Where an allocation fails some of the piece may stand there.

/// Appends a word and a number, and behind them the fields of a cut.
fn put_numbered_cut(
    text: &mut Vec<u8>,
    word: &[u8],
    number: u32,
    cut: &Cut,
) -> Result<(), AllocError>
    ensures { Puts result text.old.items text.new.items
        ((word.now ++ decimal number) ++ barred (map decimal cut.now)) }
{
    // For the proof alone: its clause says that there is an entry.
    cut.agents();
    let Ok(()) = put_numbered(text, word, u128::from(number)) else {
        return Err(AllocError);
    };
    let Ok(()) = text.push(b'|') else {
        return Err(AllocError);
    };
    cut.put(text)
}

/// Appends a vote's ballot and cut; 0 for none.
fn put_vote(text: &mut Vec<u8>, vote: Option<&Vote>) -> Result<(), AllocError>
    ensures { Puts result text.old.items text.new.items
        (barred (vote_fields (option_copied vote.entry))) }
{
    match vote {
        Some(vote) => put_numbered_cut(text, b"|", vote.ballot.number(), &vote.cut),
        None => text.extend_from_slice(b"|0"),
    }
}

/// Appends a word and the number of a period, and behind them that of a ballot.
fn put_ballot(
    text: &mut Vec<u8>,
    word: &[u8],
    period: Period,
    ballot: Ballot,
) -> Result<(), AllocError>
    ensures { Puts result text.old.items text.new.items
        ((word.now ++ decimal period) ++ barred (decimal ballot ∷ [])) }
{
    let Ok(()) = put_numbered(text, word, u128::from(period.number())) else {
        return Err(AllocError);
    };
    put_numbered(text, b"|", u128::from(ballot.number()))
}

/// Appends a word and the number of a period, and behind them those of a ballot and a cut.
fn put_proposal(
    text: &mut Vec<u8>,
    word: &[u8],
    period: Period,
    ballot: Ballot,
    cut: &Cut,
) -> Result<(), AllocError>
    ensures { Puts result text.old.items text.new.items
        ((word.now ++ decimal period) ++ barred (decimal ballot ∷ map decimal cut.now)) }
{
    let Ok(()) = put_numbered(text, word, u128::from(period.number())) else {
        return Err(AllocError);
    };
    put_numbered_cut(text, b"|", ballot.number(), cut)
}

/// Appends the own fields of a Promise.
fn put_promise(
    text: &mut Vec<u8>,
    from: u8,
    period: Period,
    ballot: Ballot,
    vote: Option<&Vote>,
) -> Result<(), AllocError>
    ensures { Puts result text.old.items text.new.items
        (barred (codes "promise" ∷ decimal from ∷ decimal period ∷ decimal ballot
        ∷ vote_fields (option_copied vote.entry))) }
{
    let Ok(()) = put_numbered(text, b"|promise|", u128::from(from)) else {
        return Err(AllocError);
    };
    let Ok(()) = put_ballot(text, b"|", period, ballot) else {
        return Err(AllocError);
    };
    put_vote(text, vote)
}

/// Appends the own fields of an Accepted.
fn put_accepted(
    text: &mut Vec<u8>,
    from: u8,
    period: Period,
    ballot: Ballot,
    cut: &Cut,
) -> Result<(), AllocError>
    ensures { Puts result text.old.items text.new.items
        (barred (codes "accepted" ∷ decimal from ∷ decimal period ∷ decimal ballot
        ∷ map decimal cut.now)) }
{
    let Ok(()) = put_numbered(text, b"|accepted|", u128::from(from)) else {
        return Err(AllocError);
    };
    put_proposal(text, b"|", period, ballot, cut)
}

/// Appends the own fields of a batch: how many lines it has.
fn put_lines(text: &mut Vec<u8>, batch: &OwnedBatch) -> Result<(), AllocError>
    ensures { Puts result text.old.items text.new.items
        (barred (codes "batch" ∷ decimal (lines_of_batch (batch_of batch.now)) ∷ [])) }
{
    let lines = 1 + u128::from(batch.view().count());
    put_numbered(text, b"|batch|", lines)
}

/// Appends a packet's own fields.
fn put_fields(text: &mut Vec<u8>, packet: &Packet) -> Result<(), AllocError>
    ensures { Puts result text.old.items text.new.items
        (barred (packet_fields (packet_of packet.now))) }
{
    match packet {
        Packet::Batch(batch) => put_lines(text, batch),
        Packet::Prepare { period, ballot } => put_ballot(text, b"|prepare|", *period, *ballot),
        Packet::Promise {
            from,
            period,
            ballot,
            vote,
        } => put_promise(text, *from, *period, *ballot, vote.as_ref()),
        Packet::Accept {
            period,
            ballot,
            cut,
        } => put_proposal(text, b"|accept|", *period, *ballot, cut),
        Packet::Accepted {
            from,
            period,
            ballot,
            cut,
        } => put_accepted(text, *from, *period, *ballot, cut),
        Packet::Decided { period, cut } => {
            put_numbered_cut(text, b"|decided|", u32::from(period.number()), cut)
        }
    }
}

/// Appends what stands below a packet's line.
fn put_below(text: &mut Vec<u8>, packet: &Packet) -> Result<(), AllocError>
    ensures { Puts result text.old.items text.new.items (text_below (packet_of packet.now)) }
{
    match packet {
        Packet::Batch(batch) => text.extend_from_slice(batch.bytes()),
        _ => Ok(()),
    }
}

/// Appends a packet's line, and what stands below it.
fn put_whole(text: &mut Vec<u8>, name: &[u8], packet: &Packet) -> Result<(), AllocError>
    ensures { Puts result text.old.items text.new.items
        (packet_text name.now (packet_of packet.now)) }
{
    let Ok(()) = text.extend_from_slice(b"P1|") else {
        return Err(AllocError);
    };
    let Ok(()) = text.extend_from_slice(name) else {
        return Err(AllocError);
    };
    let Ok(()) = put_fields(text, packet) else {
        return Err(AllocError);
    };
    let Ok(()) = text.extend_from_slice(b"\n") else {
        return Err(AllocError);
    };
    put_below(text, packet)
}

/// Appends the packet's text as one of the group of that name. An error is an allocation failure, and leaves the text's
/// bytes as they were.
///
/// `read_packet` takes just what has a name of 1 to 32 letters, digits and `-`, and numbers within their limits.
pub fn put_packet(text: &mut Vec<u8>, group: &[u8], packet: &Packet) -> Result<(), AllocError>
    ensures put { OnOk result (text.new.items
        ≡ text.old.items ++ packet_text group.now (packet_of packet.now)) }
    ensures kept { OnErr result (text.new.items ≡ text.old.items) }
{
    let before = text.len();
    match put_whole(text, group, packet) {
        Ok(()) => Ok(()),
        Err(failed) => {
            text.truncate(before);
            Err(failed)
        }
    }
}
