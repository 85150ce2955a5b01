//! Which packets are of a group.

ghost use Rattle.std.specs.Prelude.{◌≡◌, ◌&&◌, nat_le, nat_lt};
ghost use Rattle.group_events.specs.Batches.{batch_of};
ghost use Rattle.group_node.specs.Packets.{packet_of};
ghost use Rattle.process_laws.specs.LocalSteps.{is_ballot_of, is_cut_of, is_of_group, is_packet_of, is_period, is_vote_of};

use crate::groups::Group;
use group_events::{Cut, OwnedBatch, Period};
use group_node::Packet;
use node_kept::{Ballot, Vote};

/// There are no more periods than this.
const MOST_PERIODS: u16 = 1_200;
/// Rounds of a node, and one more.
const ROUNDS_AND_ONE: u32 = 10_001;

/// Whether a period is one that a group bills.
fn is_period(period: Period) -> bool
    ensures { result ≡ is_period period }
{
    period.number() < MOST_PERIODS
}

impl Group {
    /// Whether a ballot is one that a voter of the group begins in one of its rounds.
    fn has_ballot(&self, ballot: Ballot) -> bool
        ensures { result ≡ is_ballot_of self.now.voters ballot }
    {
        let voters = u32::from(self.voters);
        voters <= ballot.number() && ballot.number() < ROUNDS_AND_ONE * voters
    }

    /// Whether a cut has an entry for each agent.
    fn has_cut(&self, cut: &Cut) -> bool
        ensures { result ≡ is_cut_of self.now.agents cut.now }
    {
        cut.agents() == self.agents
    }

    /// Whether a promise's vote, if it tells one, is of such a ballot and such a cut.
    fn has_vote(&self, vote: &Option<Vote>) -> bool
        ensures { result ≡ is_vote_of self.now.voters self.now.agents vote.now }
    {
        match vote {
            Some(vote) => self.has_ballot(vote.ballot) && self.has_cut(&vote.cut),
            None => true,
        }
    }

    /// Whether a batch is of one of the group's agents.
    fn has_batch(&self, batch: &OwnedBatch) -> bool
        ensures { result ≡ nat_le (batch_of batch.now).agent self.now.agents }
    {
        batch.view().agent() <= self.agents
    }

    /// Whether a period and a ballot are of the group.
    fn has_attempt(&self, period: Period, ballot: Ballot) -> bool
        ensures { result ≡ (is_period period && is_ballot_of self.now.voters ballot) }
    {
        is_period(period) && self.has_ballot(ballot)
    }

    /// Whether a voter of the group, a period and a ballot are.
    fn has_attempt_of(&self, from: u8, period: Period, ballot: Ballot) -> bool
        ensures { result ≡ (nat_lt from self.now.voters && is_period period
            && is_ballot_of self.now.voters ballot) }
    {
        from < self.voters && is_period(period) && self.has_ballot(ballot)
    }

    /// Whether the numbers of a packet are of the group.
    pub(crate) fn has_packet(&self, packet: &Packet) -> bool
        ensures { result ≡ is_packet_of self.now.voters self.now.agents (packet_of packet.now) }
    {
        match packet {
            Packet::Batch(batch) => self.has_batch(batch),
            Packet::Prepare { period, ballot } => self.has_attempt(*period, *ballot),
            Packet::Promise {
                from,
                period,
                ballot,
                vote,
            } => self.has_attempt_of(*from, *period, *ballot) && self.has_vote(vote),
            Packet::Accept {
                period,
                ballot,
                cut,
            } => self.has_attempt(*period, *ballot) && self.has_cut(cut),
            Packet::Accepted {
                from,
                period,
                ballot,
                cut,
            } => self.has_attempt_of(*from, *period, *ballot) && self.has_cut(cut),
            Packet::Decided { period, cut } => is_period(*period) && self.has_cut(cut),
        }
    }

    /// Whether a packet that was sent in the group of that name is one of this group.
    pub(crate) fn has_sent(&self, name: &[u8], packet: &Packet) -> bool
        ensures { result ≡ is_of_group self.now name.now (packet_of packet.now) }
    {
        self.is_named(name) && self.has_packet(packet)
    }
}
