//! What a step adds to what is kept.

ghost use Rattle.std.specs.Prelude.{◌≡◌, ◌≤◌, Some, length};
ghost use Rattle.std.specs.Arc.{arc_value};
ghost use Rattle.std.specs.Option.{option_copied};
ghost use Rattle.metering_model.specs.BatchReading.{is_same};
ghost use Rattle.metering_model.specs.Dates.{IsPeriod};
ghost use Rattle.metering_model.specs.Limits.{most_rounds};
ghost use Rattle.batch_store.specs.Batches.{batch_of};
ghost use Rattle.node_kept.specs.Kept.{IsKept};
ghost use Rattle.log_text.specs.LogText.{BeginsRound, Learns, SetsBallots, Takes, ballots_go_on, is_promised, is_same_vote, is_vote_at};
ghost use Rattle.log_text.specs.Inner.Reading.{Adds, IsPromise, IsVoteAmong};

use crate::faults::Unread;
use batch_store::{Cut, OwnedBatch};
use node_kept::Parts;
use paxos_ballot::{Acceptor, Ballot, Vote};
use std::sync::Arc;

/// What a step adds to what is kept. Nothing of it is copied.
#[derive(Clone, Copy)]
pub enum Increment<'a> {
    /// The round of that number was begun.
    Round(u16),
    /// A promise or a vote was made in the period of that number, the first that is not learned: this is what is promised
    /// and accepted now.
    Ballots(u16, &'a Acceptor),
    /// The cut of the period of that number was learned.
    Learned(u16, &'a Cut),
    /// A batch was taken.
    Batch(&'a OwnedBatch),
}

// Each of these adds to what is kept, if it goes on from that. At an error nothing is said of what is kept then.

/// Begins the round, if that is the next one.
pub(crate) fn add_round(parts: &mut Parts, round: u16) -> Result<(), Unread>
    requires kept { IsKept parts.old }
    requires most { round ≤ most_rounds }
    ensures { Adds result parts.old parts.new (Some (BeginsRound round)) }
{
    if round != parts.round + 1 {
        return Err(Unread::NotThere);
    }
    parts.round = round;
    Ok(())
}

/// Whether both are the same cut.
fn is_same_cut(one: &Cut, two: &Cut) -> bool
    ensures { result ≡ is_same one.now two.now }
{
    one.same(two)
}

/// Whether both are the same vote, or none.
fn is_same_vote(one: Option<&Vote>, two: Option<&Vote>) -> bool
    ensures { result ≡ is_same_vote (option_copied one.entry) (option_copied two.entry) }
{
    let Some(one) = one else {
        return two.is_none();
    };
    match two {
        Some(two) => one.ballot.number() == two.ballot.number() && is_same_cut(&one.cut, &two.cut),
        None => false,
    }
}

/// Whether that ballot is the one promised.
fn is_promised(ballot: Ballot, promised: Option<Ballot>) -> bool
    ensures { result ≡ is_promised ballot promised }
{
    match promised {
        Some(promised) => ballot.number() == promised.number(),
        None => false,
    }
}

/// Whether it is a vote at that ballot.
fn is_vote_at(ballot: Ballot, vote: Option<&Vote>) -> bool
    ensures { result ≡ is_vote_at ballot (option_copied vote.entry) }
{
    match vote {
        Some(vote) => vote.ballot.number() == ballot.number(),
        None => false,
    }
}

/// Whether promise and vote go on from those before: the promise is not lowered, the vote stays or gives way to one at
/// the promised ballot, and one of the two is new.
fn ballots_go_on(old: &Acceptor, new: &Acceptor) -> bool
    ensures { result ≡ ballots_go_on old.now new.now }
{
    let Some(ballot) = new.promised() else {
        return false;
    };
    let same = is_same_vote(old.vote(), new.vote());
    ballot.is_not_below(old.promised())
        && (same || is_vote_at(ballot, new.vote()))
        && !(is_promised(ballot, old.promised()) && same)
}

/// Makes a promise or a vote in that period, if it goes on from those before.
pub(crate) fn add_ballots(parts: &mut Parts, period: u16, acceptor: Acceptor) -> Result<(), Unread>
    requires kept { IsKept parts.old }
    requires limits { IsPromise acceptor.promised × IsVoteAmong parts.old.agents acceptor.vote }
    ensures { Adds result parts.old parts.new (Some (SetsBallots period acceptor)) }
{
    if usize::from(period) != parts.learned.len() || !ballots_go_on(&parts.acceptor, &acceptor) {
        return Err(Unread::NotThere);
    }
    parts.acceptor = acceptor;
    Ok(())
}

/// Learns the period's cut, if that is the next one: promise and vote are of the period behind.
pub(crate) fn add_cut(parts: &mut Parts, period: u16, cut: Arc<Cut>) -> Result<(), Unread>
    requires kept { IsKept parts.old }
    requires limits { IsPeriod period × (length (arc_value cut) ≡ parts.old.agents) }
    ensures { Adds result parts.old parts.new (Some (Learns period (arc_value cut))) }
{
    if usize::from(period) != parts.learned.len() {
        return Err(Unread::NotThere);
    }
    let Ok(()) = parts.learned.push(cut) else {
        return Err(Unread::NoMemory);
    };
    parts.acceptor = Acceptor::new();
    Ok(())
}

/// Takes a batch, if it is of an agent that there is, and was not there.
pub(crate) fn add_batch(parts: &mut Parts, batch: Arc<OwnedBatch>) -> Result<(), Unread>
    requires { IsKept parts.old }
    ensures { Adds result parts.old parts.new (Some (Takes (batch_of (arc_value batch)))) }
{
    if batch.view().agent() > parts.store.agents() {
        return Err(Unread::NotThere);
    }
    let Ok(added) = parts.store.put(batch) else {
        return Err(Unread::NoMemory);
    };
    if !added {
        return Err(Unread::NotThere);
    }
    Ok(())
}
