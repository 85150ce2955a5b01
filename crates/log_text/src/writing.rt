//! Heads, increments, and what is kept, written as lines of a log.

ghost use Rattle.std.specs.Prelude.{◌≡◌, Some, [], ◌∷◌, ◌++◌, codes, decimal, map, IfOk, OnErr, OnOk};
ghost use Rattle.std.specs.Option.{option_copied};
ghost use Rattle.metering_model.specs.Transcript.{line_count};
ghost use Rattle.packet_text.specs.PacketText.{vote_fields};
ghost use Rattle.packet_text.specs.Inner.Pieces.{Puts, barred};
ghost use Rattle.log_text.specs.Heads.{who_of};
ghost use Rattle.log_text.specs.Increments.{increment_of};
ghost use Rattle.log_text.specs.LogText.{SetsBallots, base_text, has_head, head_text, increment_text, section_line, who_fields};

use crate::heads::{LogHead, Who};
use crate::increments::Increment;
use batch_store::Cut;
use byte_text::{is_same, line_count, put_numbered};
use node_kept::{Kept, promised_number};
use paxos_ballot::{Acceptor, Vote};
use std::alloc::{AllocError, Global};

// Each of these appends a piece of a log's text. Where an allocation fails some of the piece may stand there.

/// Appends whose log it is.
fn put_who(text: &mut Vec<u8>, who: Who) -> Result<(), AllocError>
    ensures { Puts result text.old.items text.new.items (barred (who_fields (who_of who))) }
{
    match who {
        Who::Node(node) => put_numbered(text, b"|node|", u128::from(node)),
        Who::Agent(agent) => put_numbered(text, b"|agent|", u128::from(agent)),
    }
}

/// Appends how many nodes vote and observe, and how many agents there are, and ends the line.
fn put_sizes(text: &mut Vec<u8>, head: &LogHead) -> Result<(), AllocError>
    ensures { Puts result text.old.items text.new.items (barred
        (decimal head.now.voters ∷ decimal head.now.observers ∷ decimal head.now.agents ∷ [])
        ++ 10 ∷ []) }
{
    let Ok(()) = put_numbered(text, b"|", u128::from(head.voters())) else {
        return Err(AllocError);
    };
    let Ok(()) = put_numbered(text, b"|", u128::from(head.observers())) else {
        return Err(AllocError);
    };
    let Ok(()) = put_numbered(text, b"|", u128::from(head.agents())) else {
        return Err(AllocError);
    };
    text.extend_from_slice(b"\n")
}

/// Appends the head line.
fn put_whole_head(text: &mut Vec<u8>, head: &LogHead) -> Result<(), AllocError>
    ensures { Puts result text.old.items text.new.items (head_text head.now) }
{
    let Ok(()) = text.extend_from_slice(b"G1|") else {
        return Err(AllocError);
    };
    let Ok(()) = text.extend_from_slice(head.group()) else {
        return Err(AllocError);
    };
    let Ok(()) = put_who(text, head.who()) else {
        return Err(AllocError);
    };
    put_sizes(text, head)
}

/// Appends a word and a number, and behind them the fields of a cut, and ends the line.
fn put_cut(text: &mut Vec<u8>, word: &[u8], number: u32, cut: &Cut) -> Result<(), AllocError>
    ensures { Puts result text.old.items text.new.items
        (((word.now ++ decimal number) ++ barred (map decimal cut.now)) ++ 10 ∷ []) }
{
    // For the proof alone: its clause says that there is an entry.
    cut.agents();
    let Ok(()) = put_numbered(text, word, u128::from(number)) else {
        return Err(AllocError);
    };
    let Ok(()) = text.extend_from_slice(b"|") else {
        return Err(AllocError);
    };
    let Ok(()) = cut.put(text) else {
        return Err(AllocError);
    };
    text.extend_from_slice(b"\n")
}

/// Appends the ballot and the cut of a vote, or 0 for none, and ends the line.
fn put_vote(text: &mut Vec<u8>, vote: Option<&Vote>) -> Result<(), AllocError>
    ensures { Puts result text.old.items text.new.items
        (barred (vote_fields (option_copied vote.entry)) ++ 10 ∷ []) }
{
    match vote {
        Some(vote) => put_cut(text, b"|", vote.ballot.number(), &vote.cut),
        None => text.extend_from_slice(b"|0\n"),
    }
}

/// Appends the line of a promise and a vote of a period.
fn put_ballots(text: &mut Vec<u8>, period: u16, acceptor: &Acceptor) -> Result<(), AllocError>
    ensures { Puts result text.old.items text.new.items
        (increment_text (SetsBallots period acceptor.now)) }
{
    let Ok(()) = put_numbered(text, b"ballot|", u128::from(period)) else {
        return Err(AllocError);
    };
    let promised = promised_number(acceptor.promised());
    let Ok(()) = put_numbered(text, b"|", u128::from(promised)) else {
        return Err(AllocError);
    };
    put_vote(text, acceptor.vote())
}

/// Appends a word and a number, and ends the line.
fn put_counted(text: &mut Vec<u8>, word: &[u8], number: u128) -> Result<(), AllocError>
    ensures { Puts result text.old.items text.new.items (section_line word.now number) }
{
    let Ok(()) = put_numbered(text, word, number) else {
        return Err(AllocError);
    };
    text.extend_from_slice(b"\n")
}

/// Appends a word and how many lines follow, and these.
fn put_section(text: &mut Vec<u8>, word: &[u8], lines: u128, below: &[u8]) -> Result<(), AllocError>
    ensures { Puts result text.old.items text.new.items
        (section_line word.now lines ++ below.now) }
{
    let Ok(()) = put_counted(text, word, lines) else {
        return Err(AllocError);
    };
    text.extend_from_slice(below)
}

/// Appends the lines of an increment.
fn put_whole_increment(text: &mut Vec<u8>, increment: &Increment) -> Result<(), AllocError>
    ensures { Puts result text.old.items text.new.items
        (increment_text (increment_of increment.now)) }
{
    match increment {
        Increment::Round(round) => put_counted(text, b"round|", u128::from(*round)),
        Increment::Ballots(period, acceptor) => put_ballots(text, *period, acceptor),
        Increment::Learned(period, cut) => put_cut(text, b"learned|", u32::from(*period), cut),
        Increment::Batch(batch) => {
            let lines = 1 + u128::from(batch.view().count());
            put_section(text, b"batch ", lines, batch.bytes())
        }
    }
}

/// Appends the head line with which a log begins. An error is an allocation failure, and leaves the text's bytes as
/// they were.
pub fn put_head(text: &mut Vec<u8>, head: &LogHead) -> Result<(), AllocError>
    ensures put { OnOk result (text.new.items ≡ text.old.items ++ head_text head.now) }
    ensures kept { OnErr result (text.new.items ≡ text.old.items) }
{
    let before = text.len();
    let result = put_whole_head(text, head);
    if result.is_err() {
        text.truncate(before);
    }
    result
}

/// Whether a text begins with just that head line. An error is an allocation failure.
pub fn has_head(alloc: Global, head: &LogHead, text: &[u8]) -> Result<bool, AllocError>
    ensures { IfOk result (λ is. is ≡ has_head head.now text.now) }
{
    let mut line = Vec::new(alloc);
    let Ok(()) = put_head(&mut line, head) else {
        return Err(AllocError);
    };
    let length = line.len().min(text.len());
    Ok(is_same(&text[..length], &line))
}

/// Appends the lines of what a step adds. An error is an allocation failure, and leaves the text's bytes as they were.
pub fn put_increment(text: &mut Vec<u8>, increment: &Increment) -> Result<(), AllocError>
    ensures put { OnOk result (text.new.items ≡ text.old.items
        ++ increment_text (increment_of increment.now)) }
    ensures kept { OnErr result (text.new.items ≡ text.old.items) }
{
    let before = text.len();
    let result = put_whole_increment(text, increment);
    if result.is_err() {
        text.truncate(before);
    }
    result
}

/// Appends the text of what is kept, with a line above it that counts its lines. An error leaves the text's bytes as
/// they were.
fn put_base(text: &mut Vec<u8>, written: &[u8]) -> Result<(), AllocError>
    ensures put { OnOk result (text.new.items ≡ text.old.items
        ++ section_line (codes "kept ") (line_count written.now) ++ written.now) }
    ensures kept { OnErr result (text.new.items ≡ text.old.items) }
{
    let before = text.len();
    let result = put_section(text, b"kept ", line_count(written) as u128, written);
    if result.is_err() {
        text.truncate(before);
    }
    result
}

/// Appends what is kept, as what a log begins with after its head line. An error is an allocation failure, and leaves
/// the text's bytes as they were.
pub fn put_kept(text: &mut Vec<u8>, alloc: Global, kept: &Kept) -> Result<(), AllocError>
    ensures put { OnOk result (text.new.items ≡ text.old.items ++ base_text (Some kept.now)) }
    ensures kept { OnErr result (text.new.items ≡ text.old.items) }
{
    match kept.write(alloc) {
        Ok(written) => put_base(text, &written),
        Err(failed) => Err(failed),
    }
}
