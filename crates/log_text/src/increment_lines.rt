//! Increments, each read from its line, or from the lines below it, and added to what is kept.

ghost use Rattle.std.specs.Prelude.{◌≡◌, ℕ, ◌≤◌, length, None, Some, Ok, MatchOption, MatchResult};
ghost use Rattle.std.specs.Arc.{arc_value};
ghost use Rattle.std.specs.Option.{option_map};
ghost use Rattle.std.specs.Result.{result_ok};
ghost use Rattle.metering_model.specs.BatchReading.{batch_in, fields_in, whole_in};
ghost use Rattle.metering_model.specs.KeptText.{cut_in};
ghost use Rattle.metering_model.specs.Limits.{last_period, most_agents, most_rounds};
ghost use Rattle.batch_store.specs.Batches.{batch_of};
ghost use Rattle.node_kept.specs.Kept.{IsKept};
ghost use Rattle.log_text.specs.LogText.{BeginsRound, Takes, ballots_in, learned_in, line_increment_in, round_in};
ghost use Rattle.log_text.specs.Inner.Reading.{Adds, AreBallots, IfNotThere, IsVoteAmong, batch_of_text, vote_of_fields};

use crate::faults::Unread;
use crate::increments::{add_ballots, add_batch, add_cut, add_round};
use batch_store::{Cut, Offer, OwnedBatch};
use byte_text::{is_same, read_whole, split_at_bar};
use node_kept::Parts;
use paxos_ballot::{Acceptor, Ballot, Vote};
use std::alloc::Global;
use std::sync::Arc;

/// A batch has no more bytes.
const MOST_BATCH_BYTES: usize = 65_536;

/// No ballot has a number above this one: that of the last of 99 nodes, in the last of 10,000 rounds.
const LAST_BALLOT: u32 = 990_098;

/// The cut of so many agents.
fn read_cut(alloc: Global, fields: &[u8], agents: u8) -> Result<Arc<Cut>, Unread>
    requires from { 1 ≤ agents }
    requires to { agents ≤ most_agents }
    ensures { MatchResult result
        (λ cut. (cut_in agents (fields_in fields.now) ≡ Some (arc_value cut))
        × (length (arc_value cut) ≡ agents))
        (λ why. IfNotThere why (cut_in agents (fields_in fields.now) ≡ None)) }
{
    match Cut::read_shared(alloc, fields, agents) {
        Ok(Some(cut)) => Ok(cut),
        Ok(None) => Err(Unread::NotThere),
        Err(_) => Err(Unread::NoMemory),
    }
}

/// The round of that number, from 1 to 10,000.
fn read_round(fields: &[u8]) -> Option<u16>
    ensures { MatchOption result
        (round_in (fields_in fields.now) ≡ None)
        (λ round. (round_in (fields_in fields.now) ≡ Some (BeginsRound round))
        × (round ≤ most_rounds)) }
{
    if split_at_bar(fields).is_some() {
        return None;
    }
    let Some(round) = read_whole(fields, 1, 10_000) else {
        return None;
    };
    Some(round as u16)
}

/// The vote, if there is one: its ballot, which is not 0, and its cut, or the ballot 0 alone.
fn read_vote(alloc: Global, fields: &[u8], agents: u8) -> Result<Option<Vote>, Unread>
    requires from { 1 ≤ agents }
    requires to { agents ≤ most_agents }
    ensures { MatchResult result
        (λ vote. (vote_of_fields agents (fields_in fields.now) ≡ Some vote)
        × IsVoteAmong agents vote)
        (λ why. IfNotThere why (vote_of_fields agents (fields_in fields.now) ≡ None)) }
{
    let Some((ballot, cut)) = split_at_bar(fields) else {
        return match read_whole(fields, 0, LAST_BALLOT) {
            Some(0) => Ok(None),
            _ => Err(Unread::NotThere),
        };
    };
    let Some(number) = read_whole(ballot, 0, LAST_BALLOT) else {
        return Err(Unread::NotThere);
    };
    let Some(ballot) = Ballot::numbered(number) else {
        return Err(Unread::NotThere);
    };
    match read_cut(alloc, cut, agents) {
        Ok(cut) => Ok(Some(Vote { ballot, cut })),
        Err(why) => Err(why),
    }
}

/// The number of a period, at most 1,199.
fn read_period(text: &[u8]) -> Option<u16>
    ensures { result ≡ whole_in 0 last_period text.now }
{
    let Some(period) = read_whole(text, 0, 1_199) else {
        return None;
    };
    Some(period as u16)
}

/// The period and the promise of a promise and a vote, and the fields of the vote.
#[derive(Clone, Copy)]
struct BallotFields<'a> {
    period: u16,
    promised: Option<Ballot>,
    vote: &'a [u8],
}

/// The fields of a promise and a vote, if they may be such, of any number of agents.
fn ballot_fields(fields: &[u8]) -> Option<BallotFields<'_>>
    ensures { MatchOption result
        ((agents : ℕ) → ballots_in agents (fields_in fields.now) ≡ None)
        (λ f. AreBallots (fields_in fields.now) f.period f.promised (fields_in f.vote.now)) }
{
    let Some((period, rest)) = split_at_bar(fields) else {
        return None;
    };
    let Some((promised, vote)) = split_at_bar(rest) else {
        return None;
    };
    let Some(period) = read_period(period) else {
        return None;
    };
    let Some(number) = read_whole(promised, 0, LAST_BALLOT) else {
        return None;
    };
    Some(BallotFields {
        period,
        promised: Ballot::numbered(number),
        vote,
    })
}

// Each of these adds what it reads to what is kept, if it goes on from that.

/// Makes the promise or the vote of these fields.
fn add_ballots_of(alloc: Global, parts: &mut Parts, fields: &[u8]) -> Result<(), Unread>
    requires { IsKept parts.old }
    ensures { Adds result parts.old parts.new
        (ballots_in parts.old.agents (fields_in fields.now)) }
{
    let Some(numbers) = ballot_fields(fields) else {
        return Err(Unread::NotThere);
    };
    match read_vote(alloc, numbers.vote, parts.store.agents()) {
        Ok(vote) => add_ballots(parts, numbers.period, Acceptor::of(numbers.promised, vote)),
        Err(why) => Err(why),
    }
}

/// Learns the period's cut of these fields.
fn add_learned(alloc: Global, parts: &mut Parts, fields: &[u8]) -> Result<(), Unread>
    requires { IsKept parts.old }
    ensures { Adds result parts.old parts.new
        (learned_in parts.old.agents (fields_in fields.now)) }
{
    let agents = parts.store.agents();
    let Some((period, cut)) = split_at_bar(fields) else {
        return Err(Unread::NotThere);
    };
    let Some(period) = read_period(period) else {
        return Err(Unread::NotThere);
    };
    match read_cut(alloc, cut, agents) {
        Ok(cut) => add_cut(parts, period, cut),
        Err(why) => Err(why),
    }
}

/// Adds the increment that is that line.
pub(crate) fn add_line(alloc: Global, parts: &mut Parts, line: &[u8]) -> Result<(), Unread>
    requires { IsKept parts.old }
    ensures { Adds result parts.old parts.new
        (line_increment_in parts.old.agents (fields_in line.now)) }
{
    let Some((word, fields)) = split_at_bar(line) else {
        return Err(Unread::NotThere);
    };
    if is_same(word, b"round") {
        return match read_round(fields) {
            Some(round) => add_round(parts, round),
            None => Err(Unread::NotThere),
        };
    }
    if is_same(word, b"ballot") {
        return add_ballots_of(alloc, parts, fields);
    }
    if is_same(word, b"learned") {
        return add_learned(alloc, parts, fields);
    }
    Err(Unread::NotThere)
}

/// The batch that these bytes are. They are copied once.
fn read_batch(alloc: Global, bytes: &[u8]) -> Result<Arc<OwnedBatch>, Unread>
    ensures { MatchResult result
        (λ batch. (arc_value batch ≡ bytes.now) × (batch_in bytes.now ≡ Ok (batch_of bytes.now)))
        (λ why. IfNotThere why (result_ok (batch_in bytes.now) ≡ None)) }
{
    if bytes.len() > MOST_BATCH_BYTES {
        return Err(Unread::NotThere);
    }
    let Ok(copied) = Vec::from_slice(alloc, bytes) else {
        return Err(Unread::NoMemory);
    };
    match Offer::read(alloc, copied) {
        Ok(Offer::Good(batch)) => Ok(batch),
        Ok(Offer::Bad(_)) => Err(Unread::NotThere),
        Err(_) => Err(Unread::NoMemory),
    }
}

/// Takes the batch that a text is, of so many lines.
pub(crate) fn add_batch_of(
    alloc: Global,
    parts: &mut Parts,
    lines: u32,
    text: &[u8],
) -> Result<(), Unread>
    requires { IsKept parts.old }
    ensures { Adds result parts.old parts.new (option_map Takes (batch_of_text lines text.now)) }
{
    let batch = match read_batch(alloc, text) {
        Ok(batch) => batch,
        Err(why) => return Err(why),
    };
    if lines != 1 + u32::from(batch.view().count()) {
        return Err(Unread::NotThere);
    }
    add_batch(parts, batch)
}
