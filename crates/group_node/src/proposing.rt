//! What a node proposes.
ghost use Rattle.std.specs.Prelude.{◌≡◌, ◌<◌, length, IfOk, IfSome, OnErr, Some, None};
ghost use Rattle.std.specs.List.{last_or};
ghost use Rattle.std.specs.Option.{option_copied, option_map};
ghost use Rattle.std.specs.Arc.{arc_value};
ghost use Rattle.metering_model.specs.Dates.{IsBaseMonth};
ghost use Rattle.metering_model.specs.Ballot.{Attempt as ModelAttempt};
ghost use Rattle.metering_model.specs.World.{Promise, current_period};
ghost use Rattle.node_kept.specs.Promises.{after_promise};
ghost use Rattle.group_node.specs.Packets.{packet_of};
ghost use Rattle.group_node.specs.Nodes.{IsNodeAmong};
ghost use Rattle.group_node.specs.Handling.{Does};
ghost use Rattle.group_node.specs.Inner.Proposing.{proposal_at, accept_at, awaits, counted};

use crate::nodes::Node;
use crate::packets::Packet;
use crate::voting::share_vote;
use node_kept::{Attempt, Ballot, Vote};
use period_cut::{Cut, Month, Period};
use std::alloc::{AllocError, Global};
use std::sync::Arc;

/// Counts the promise of a node.
fn count_promise(attempt: &mut Attempt, from: u8, vote: Option<Vote>)
    requires { from < length attempt.old.promising }
    ensures { attempt.new ≡ after_promise from vote attempt.old }
{
    attempt.on_promise(from, vote);
}

impl Node {
    /// The cut that the node has learned last.
    fn last_learned(&self) -> Option<&Arc<Cut>>
        ensures cut { option_map arc_value (option_copied result)
            ≡ last_or None self.now.node.kept.learned }
        ensures size { IfSome result (λ cut. length (arc_value cut.now) ≡ self.now.agents) }
    {
        let kept = &self.kept;
        kept.learned.last()
    }

    /// How far what the node holds can be closed for its current period.
    fn own_front(&self, alloc: Global, base: Month, period: Period) -> Result<Cut, AllocError>
        requires base { IsBaseMonth base }
        requires period { period ≡ current_period self.now.node }
        ensures { IfOk result (λ cut. cut ≡ proposal_at base self.now.agents self.now.node None) }
    {
        let kept = &self.kept;
        if let Some(cut) = self.last_learned() {
            return kept.store.due_front(alloc, cut, period, base);
        }
        let zero = Cut::zero(alloc, kept.store.agents())?;
        kept.store.due_front(alloc, &zero, period, base)
    }

    /// The cut that goes out where that vote was told, or none.
    fn proposal(
        &self,
        alloc: Global,
        base: Month,
        period: Period,
        told: Option<&Vote>,
    ) -> Result<Arc<Cut>, AllocError>
        requires base { IsBaseMonth base }
        requires period { period ≡ current_period self.now.node }
        ensures { IfOk result (λ cut. arc_value cut
            ≡ proposal_at base self.now.agents self.now.node (option_copied told.entry)) }
    {
        match told {
            Some(vote) => Arc::try_clone(&vote.cut),
            None => {
                let cut = self.own_front(alloc, base, period)?;
                Ok(Arc::new(alloc, cut)?)
            }
        }
    }

    /// What goes out where that promise is counted: the cut, where the node then has a majority and has sent none.
    fn accept(
        &self,
        alloc: Global,
        base: Month,
        from: u8,
        period: Period,
        ballot: Ballot,
        vote: Option<&Vote>,
    ) -> Result<Option<Packet>, AllocError>
        requires base { IsBaseMonth base }
        requires from { from < self.now.voters }
        requires period { period ≡ current_period self.now.node }
        ensures { IfOk result (λ sends. (a : ModelAttempt) → self.now.node.attempt ≡ Some a →
            option_map packet_of sends
            ≡ accept_at base self.now.agents self.now.node from period ballot
            (option_copied vote.entry) a) }
    {
        let Some(attempt) = &self.attempt else {
            return Ok(None);
        };
        if !attempt.proposes(from) {
            return Ok(None);
        }
        let cut = self.proposal(alloc, base, period, attempt.greatest_told(vote))?;
        Ok(Some(Packet::Accept {
            period,
            ballot,
            cut,
        }))
    }

    /// Whether promises for that ballot count: it is that of the node's attempt, in its current period.
    fn awaits(&self, period: Period, ballot: Ballot) -> bool
        ensures answer { result ≡ awaits period ballot self.now.node }
        ensures within { IsNodeAmong self.now }
    {
        match &self.attempt {
            Some(attempt) => {
                period.number() == self.current_period()
                    && attempt.ballot().number() == ballot.number()
            }
            None => false,
        }
    }

    /// Counts a promise for the attempt.
    fn count(&mut self, from: u8, vote: Option<Vote>)
        requires { from < self.old.voters }
        ensures { self.new ≡ counted from vote self.old }
    {
        if let Some(attempt) = &mut self.attempt {
            count_promise(attempt, from, vote);
        }
    }

    /// A node promises a ballot to node i, and tells its vote. What is to go out is made before the promise is counted.
    pub(crate) fn on_promise(
        &mut self,
        alloc: Global,
        i: u8,
        base: Month,
        from: u8,
        period: Period,
        ballot: Ballot,
        vote: &Option<Vote>,
    ) -> Result<Option<Packet>, AllocError>
        requires base { IsBaseMonth base }
        requires from { from < self.old.voters }
        ensures does { IfOk result
            (λ sends. Does base i (Promise from period ballot vote.now) self.old self.new
            (option_map packet_of sends) None) }
        ensures kept { OnErr result (self.new ≡ self.old) }
    {
        if !self.votes(i) || !self.awaits(period, ballot) {
            return Ok(None);
        }
        let vote = share_vote(vote.as_ref())?;
        let sends = self.accept(alloc, base, from, period, ballot, vote.as_ref())?;
        self.count(from, vote);
        Ok(sends)
    }
}
