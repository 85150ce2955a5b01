//! Acceptors.
ghost use Rattle.std.specs.Prelude.{◌≡◌, ◌↔◌, IsTrue, if◌then◌else◌};
ghost use Rattle.std.specs.Option.{option_copied};
ghost use Rattle.metering_model.specs.Ballot.{new_acceptor, is_above, is_not_below, after_prepare, after_accept};

use crate::ballots::{Ballot, Vote};
use std::marker::Model;

/// What a node has promised and accepted in one period.
#[derive(Drop)]
pub struct Acceptor {
    promised: Option<Ballot>,
    vote: Option<Vote>,
}

impl Model for Acceptor {
    ghost use Rattle.metering_model.specs.Ballot as model;

    ghost Value = { model.Acceptor };

    ghost view = { λ a. record { promised = a.promised; vote = a.vote } };
}

/// What a node replies to a proposer that prepares a ballot.
#[derive(Clone, Copy, Debug, PartialEq, Eq)]
pub enum PrepareStep {
    /// A promise, which reports the vote that [`Acceptor::vote`] lends.
    Promise,
    /// Nothing.
    Silent,
}

/// Whether both are the same vote, or none.
fn is_same_vote(one: Option<&Vote>, two: Option<&Vote>) -> bool
    ensures { IsTrue result ↔ (option_copied one.entry ≡ option_copied two.entry) }
{
    match (one, two) {
        (Some(one), Some(two)) => one.ballot == two.ballot && one.cut.same(&two.cut),
        (None, None) => true,
        _ => false,
    }
}

impl Acceptor {
    ghost use Rattle.paxos_ballot.specs.declared.acceptor.PrepareStep.TheVariants.{Promise, Silent};

    /// An acceptor that has promised and accepted nothing.
    pub fn new() -> Acceptor
        ensures { result ≡ new_acceptor }
    {
        Acceptor {
            promised: None,
            vote: None,
        }
    }

    /// An acceptor that has promised this ballot and accepted this vote. The vote's ballot need not be below the one
    /// promised, nor be promised at all.
    pub fn of(promised: Option<Ballot>, vote: Option<Vote>) -> Acceptor
        ensures { result ≡ record { promised = promised; vote = vote } }
    {
        Acceptor { promised, vote }
    }

    /// Promises a ballot above the one promised. To any other the reply is Silent, and nothing changes.
    pub fn on_prepare(&mut self, ballot: Ballot) -> PrepareStep
        ensures answer { result ≡ (if is_above ballot self.old.promised then Promise else Silent) }
        ensures state { self.new ≡
            (if is_above ballot self.old.promised then after_prepare ballot self.old
            else self.old) }
    {
        if let Some(promised) = self.promised {
            if ballot.number() <= promised.number() {
                return PrepareStep::Silent;
            }
        }
        self.promised = Some(ballot);
        PrepareStep::Promise
    }

    /// Accepts a vote whose ballot is not below the one promised, and promises that ballot too. Returns true where it
    /// accepts; else false, and nothing changes.
    pub fn on_accept(&mut self, vote: Vote) -> bool
        ensures answer { result ≡ is_not_below vote.ballot self.old.promised }
        ensures state { self.new ≡
            (if is_not_below vote.ballot self.old.promised then after_accept vote self.old else
            self.old) }
    {
        if let Some(promised) = self.promised {
            if vote.ballot.number() < promised.number() {
                return false;
            }
        }
        self.promised = Some(vote.ballot);
        self.vote = Some(vote);
        true
    }

    /// Whether both have promised the same ballot and accepted the same vote.
    pub fn same(&self, other: &Acceptor) -> bool
        ensures { IsTrue result ↔ (self.now ≡ other.now) }
    {
        self.promised == other.promised && is_same_vote(self.vote.as_ref(), other.vote.as_ref())
    }

    /// The greatest ballot promised; None where none is.
    pub fn promised(&self) -> Option<Ballot>
        ensures { result ≡ self.now.promised }
    {
        self.promised
    }

    /// The vote accepted last; None where none is.
    pub fn vote(&self) -> Option<&Vote>
        ensures { option_copied result ≡ self.now.vote }
    {
        self.vote.as_ref()
    }
}
