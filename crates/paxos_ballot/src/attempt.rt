//! A proposer's attempt at one ballot.
ghost use Rattle.std.specs.Prelude.{◌≡◌, ◌<◌, ◌≤◌, length, if◌then◌else◌, Some, None};
ghost use Rattle.std.specs.Option.{option_copied};
ghost use Rattle.metering_model.specs.Ballot.{new_attempt, greater_vote};
ghost use Rattle.metering_model.specs.Limits.{most_nodes};
ghost use Rattle.paxos_ballot.specs.Promises.{proposes, after_promise};
ghost use Rattle.paxos_ballot.specs.Proposals.{proposal_in};

use crate::ballots::{Ballot, Vote};
use crate::node_set::NodeSet;
use std::marker::Model;

/// What a proposer knows at one ballot: which nodes promised, the vote of the greatest ballot that they reported, and
/// whether its proposal was made.
#[derive(Drop)]
pub struct Attempt {
    ballot: Ballot,
    promising: NodeSet,
    told: Option<Vote>,
    sent: bool,
}

impl Model for Attempt {
    ghost use Rattle.metering_model.specs.Ballot as model;

    ghost Value = { model.Attempt };

    ghost view = { λ a.
        record { ballot = a.ballot; promising = a.promising; told = a.told; sent = a.sent } };
}

/// What a promise leads to.
#[derive(Clone, Copy)]
pub enum PromiseStep<'a> {
    /// No proposal: there is no majority yet, or the proposal was made before.
    Waiting,
    /// A majority has promised: the proposal is the cut of this vote, or a cut of one's own where no vote was reported.
    Propose(Option<&'a Vote>),
}

impl Attempt {
    ghost use Rattle.std.specs.Borrow.{sem};
    ghost use Rattle.paxos_ballot.specs.Lending.{ends_as};

    /// An attempt in a group of that many nodes, at most 99, in which nobody has promised.
    pub fn new(ballot: Ballot, nodes: u8) -> Attempt
        requires { nodes ≤ most_nodes }
        ensures { result ≡ new_attempt nodes ballot }
    {
        Attempt {
            ballot,
            promising: NodeSet::nobody(nodes),
            told: None,
            sent: false,
        }
    }

    /// The ballot of the attempt.
    pub fn ballot(&self) -> Ballot
        ensures { result ≡ self.now.ballot }
    {
        self.ballot
    }

    /// Whether a promise of that node would make the proposal.
    pub fn proposes(&self, from: u8) -> bool
        requires { from < length self.now.promising }
        ensures { result ≡ proposes from self.now }
    {
        !self.sent && self.promising.with(from).has_majority()
    }

    /// The vote of the greatest ballot among the one reported so far and this one; None where there is neither. Of two
    /// votes of one ballot it is the one reported before.
    pub fn greatest_told<'a>(&'a self, vote: Option<&'a Vote>) -> Option<&'a Vote>
        ensures { option_copied result ≡ greater_vote self.now.told (option_copied vote.entry) }
    {
        let Some(told) = &self.told else {
            return vote;
        };
        let Some(vote) = vote else {
            return Some(told);
        };
        if told.ballot.number() < vote.ballot.number() {
            Some(vote)
        } else {
            Some(told)
        }
    }

    /// Takes the promise of a node for this attempt's ballot, with the vote that it reports. Propose is returned once,
    /// as the nodes that promised become a majority; nothing changes from then on. Who is to send the lent vote's cut
    /// shares it before, by [`Attempt::proposes`] and [`Attempt::greatest_told`].
    pub fn on_promise(&mut self, from: u8, vote: Option<Vote>) -> PromiseStep<'_>
        requires { from < length self.old.promising }
        ensures* state { sem 𝓛 (ends_as self.entry (after_promise from vote self.old)) }
        ensures answer { proposal_in result
            ≡ (if proposes from self.old then Some (greater_vote self.old.told vote) else None) }
    {
        if self.sent {
            return PromiseStep::Waiting;
        }
        self.promising = self.promising.with(from);
        keep_greater(&mut self.told, vote);
        if !self.promising.has_majority() {
            return PromiseStep::Waiting;
        }
        self.sent = true;
        PromiseStep::Propose(self.told.as_ref())
    }
}

// A vote of an equal ballot does not replace the one told.
fn keep_greater(told: &mut Option<Vote>, vote: Option<Vote>)
    ensures { told.new ≡ greater_vote told.old vote }
{
    let Some(new) = vote else {
        return;
    };
    if let Some(old) = told {
        if new.ballot.number() <= old.ballot.number() {
            return;
        }
    }
    *told = Some(new);
}
