//! What a node keeps, read from its text.

ghost use Rattle.std.specs.Prelude.{◌≡◌, ◌+◌, ◌≤◌, ◌∷◌, [], Ok, Err, IfErr, IfOk, MatchResult, length, map};
ghost use Rattle.std.specs.Arc.{arc_value};
ghost use Rattle.metering_model.specs.BatchReading.{lines_in};
ghost use Rattle.metering_model.specs.KeptText.{at_kept_line, batches_in, cuts_in, cuts_of_vote, kept_below, kept_in, kept_of_parts, next_batch};
ghost use Rattle.metering_model.specs.Limits.{most_agents, most_periods};
ghost use Rattle.batch_store.specs.Batches.{batch_of};
ghost use Rattle.node_kept.specs.Offers.{BeginsWithHead, IsFaultOf};
ghost use Rattle.node_kept.specs.Inner.Head.{head_of};
ghost use Rattle.node_kept.specs.Inner.Left.{AreBatchesOf, AreCutsOf, IfTold, IsNextOf, comes_behind};

use crate::faults::KeptFault;
use crate::head::{Head, head_of_line};
use crate::kept::{Kept, Parts};
use batch_store::{Cut, Offer, OwnedBatch, Store};
use byte_text::first_line;
use metering_model::KeptCode;
use paxos_ballot::{Acceptor, Ballot, Vote};
use std::alloc::Global;
use std::sync::Arc;

/// The line below the head line.
const SECOND_LINE: u64 = 2;

/// The cut on the first line, which has that number, and what stands after that line.
fn read_cut<'a>(
    alloc: Global,
    text: &'a [u8],
    line: u64,
    agents: u8,
) -> Result<(Arc<Cut>, &'a [u8]), KeptFault>
    requires from { 1 ≤ agents }
    requires to { agents ≤ most_agents }
    ensures { MatchResult result
        (λ read. AreCutsOf text.now line agents 1 (arc_value read.0 ∷ []) read.1.now)
        (λ fault. IfTold fault (λ f. cuts_in line agents 1 (lines_in text.now).lines ≡ Err f)) }
{
    let fault = KeptFault::Refused {
        code: KeptCode::Cut,
        line,
    };
    let Some((first, behind)) = first_line(text) else {
        return Err(fault);
    };
    match Cut::read_shared(alloc, first, agents) {
        Ok(Some(cut)) => Ok((cut, behind)),
        Ok(None) => Err(fault),
        Err(_) => Err(KeptFault::OutOfMemory),
    }
}

/// So many cuts, the first of them on the second line, and what stands after them.
fn read_cuts<'a>(
    alloc: Global,
    text: &'a [u8],
    agents: u8,
    count: u16,
) -> Result<(Vec<Arc<Cut>>, &'a [u8]), KeptFault>
    requires from { 1 ≤ agents }
    requires to { agents ≤ most_agents }
    ensures { MatchResult result
        (λ read. AreCutsOf text.now 2 agents count (map arc_value read.0.items) read.1.now)
        (λ fault. IfTold fault (λ f. cuts_in 2 agents count (lines_in text.now).lines ≡ Err f)) }
{
    let Ok(mut cuts) = Vec::with_capacity(alloc, usize::from(count)) else {
        return Err(KeptFault::OutOfMemory);
    };
    let mut rest = text;
    for index in 0..count {
        let (cut, behind) = read_cut(alloc, rest, SECOND_LINE + u64::from(index), agents)?;
        if cuts.push(cut).is_err() {
            return Err(KeptFault::OutOfMemory);
        }
        rest = behind;
    }
    Ok((cuts, rest))
}

/// The batch that stands first, its head line on that line, and what stands after it.
fn read_batch<'a>(
    alloc: Global,
    text: &'a [u8],
    line: u64,
) -> Result<(Arc<OwnedBatch>, &'a [u8]), KeptFault>
    ensures { MatchResult result
        (λ read. IsNextOf text.now (batch_of (arc_value read.0)) read.1.now)
        (λ fault. IfTold fault (λ f. at_kept_line line (next_batch (lines_in text.now).lines)
        ≡ Err f)) }
{
    let fault = KeptFault::Refused {
        code: KeptCode::Batch,
        line,
    };
    let (offer, length) = match Offer::read_first(alloc, text) {
        Ok(Some(first)) => first,
        Ok(None) => return Err(fault),
        Err(_) => return Err(KeptFault::OutOfMemory),
    };
    match offer {
        Offer::Good(batch) => {
            let (_, behind) = text.split_at(length as usize);
            Ok((batch, behind))
        }
        Offer::Bad(_) => Err(fault),
    }
}

/// Where a batch stands among all.
#[derive(Clone, Copy)]
struct BatchPlace {
    agent: u8,
    seq: u32,
}

/// Whether the place comes after the other, by agent and then by sequence.
fn comes_behind(place: BatchPlace, other: BatchPlace) -> bool
    ensures { result ≡ comes_behind other.agent other.seq place.agent place.seq }
{
    other.agent < place.agent || (other.agent == place.agent && other.seq < place.seq)
}

/// So many batches, the first of them from that line on, in a store; the line after them, and what stands there.
fn read_batches<'a>(
    alloc: Global,
    text: &'a [u8],
    first: u64,
    agents: u8,
    count: u32,
) -> Result<(Store, u64, &'a [u8]), KeptFault>
    requires from { 1 ≤ agents }
    requires to { agents ≤ most_agents }
    requires first { first ≤ 100_000 }
    ensures { MatchResult result
        (λ read. AreBatchesOf text.now first agents count read.0.batches read.1 read.2.now
        × (read.0.agents ≡ agents))
        (λ fault. IfTold fault (λ f. batches_in first agents None count (lines_in text.now).lines
        ≡ Err f)) }
{
    let Ok(mut store) = Store::new(alloc, agents) else {
        return Err(KeptFault::OutOfMemory);
    };
    let mut rest = text;
    let mut line = first;
    let mut last = BatchPlace { agent: 0, seq: 0 };
    for _ in 0..count {
        let (batch, behind) = read_batch(alloc, rest, line)?;
        let view = batch.view();
        let place = BatchPlace {
            agent: view.agent(),
            seq: view.seq(),
        };
        let records = view.count();
        if place.agent > agents || !comes_behind(place, last) {
            return Err(KeptFault::Refused {
                code: KeptCode::Order,
                line,
            });
        }
        if store.put(batch).is_err() {
            return Err(KeptFault::OutOfMemory);
        }
        line += 1 + u64::from(records);
        last = place;
        rest = behind;
    }
    Ok((store, line, rest))
}

/// How many cuts are the vote's, of which 0 is no ballot.
fn cuts_of_vote(ballot: u32) -> u16
    ensures value { result ≡ cuts_of_vote ballot }
    ensures most { result ≤ 1 }
{
    if ballot == 0 { 0 } else { 1 }
}

/// The parts that a head, so many cuts as it counts, and these batches are.
fn parts_of(head: Head, mut cuts: Vec<Arc<Cut>>, store: Store) -> Parts
    requires cuts { length cuts.items ≡ head.learned + cuts_of_vote head.ballot }
    requires agents { store.agents ≡ head.agents }
    ensures { result ≡ kept_of_parts (head_of head) (map arc_value cuts.items) store.batches }
{
    let vote = match Ballot::numbered(head.ballot) {
        Some(ballot) => match cuts.pop() {
            Some(cut) => Some(Vote { ballot, cut }),
            None => None,
        },
        None => None,
    };
    Parts {
        round: head.round,
        learned: cuts,
        acceptor: Acceptor::of(Ballot::numbered(head.promised), vote),
        store,
    }
}

/// The parts below a head line.
fn read_parts(alloc: Global, text: &[u8], head: Head) -> Result<Parts, KeptFault>
    requires from { 1 ≤ head.agents }
    requires to { head.agents ≤ most_agents }
    requires learned { head.learned ≤ most_periods }
    ensures { MatchResult result
        (λ parts. kept_below (lines_in text.now).lines (lines_in text.now).rest (head_of head)
        ≡ Ok parts)
        (λ fault. IfTold fault (λ f. kept_below (lines_in text.now).lines (lines_in text.now).rest
        (head_of head) ≡ Err f)) }
{
    let count = head.learned + cuts_of_vote(head.ballot);
    let (cuts, rest) = read_cuts(alloc, text, head.agents, count)?;
    let first = SECOND_LINE + u64::from(count);
    let (store, line, rest) = read_batches(alloc, rest, first, head.agents, head.batches)?;
    if !rest.is_empty() {
        return Err(KeptFault::Refused {
            code: KeptCode::Extra,
            line,
        });
    }
    Ok(parts_of(head, cuts, store))
}

impl Kept {
    /// What a node keeps whose text this is. `Refused` is the first fault by line; `OutOfMemory` comes only of a text
    /// that begins with a head line.
    ///
    /// Only the form of the text is looked at, and not whether any node keeps this.
    pub fn read(alloc: Global, text: &[u8]) -> Result<Kept, KeptFault>
        ensures ok { IfOk result (λ kept. kept_in text.now ≡ Ok kept) }
        ensures refused { IfErr result (IsFaultOf text.now) }
        ensures want { result ≡ Err KeptFault.OutOfMemory → BeginsWithHead text.now }
    {
        let fault = KeptFault::Refused {
            code: KeptCode::Head,
            line: 1,
        };
        let Some((first, below)) = first_line(text) else {
            return Err(fault);
        };
        let Some(head) = head_of_line(first) else {
            return Err(fault);
        };
        let parts = read_parts(alloc, below, head)?;
        Ok(Kept::of(parts))
    }
}
