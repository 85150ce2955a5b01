//! What a node promises and accepts.
ghost use Rattle.std.specs.Prelude.{◌≡◌, ℕ, length, IfOk, OnErr, None, slice_get};
ghost use Rattle.std.specs.Option.{option_copied, option_map};
ghost use Rattle.std.specs.Arc.{arc_value};
ghost use Rattle.metering_model.specs.World.{Prepare, Accept, Decided};
ghost use Rattle.metering_model.specs.KeptText.{IsBallotNumber};
ghost use Rattle.group_node.specs.Packets.{packet_of};
ghost use Rattle.group_node.specs.Handling.{Does};

use crate::nodes::Node;
use crate::packets::Packet;
use node_kept::{Ballot, Vote};
use period_cut::{Cut, Period};
use std::alloc::AllocError;
use std::sync::Arc;

/// The vote with one more share of its cut.
pub(crate) fn share_vote(vote: Option<&Vote>) -> Result<Option<Vote>, AllocError>
    ensures { IfOk result (λ shared. shared ≡ option_copied vote.entry) }
{
    match vote {
        Some(vote) => Ok(Some(Vote {
            ballot: vote.ballot,
            cut: Arc::try_clone(&vote.cut)?,
        })),
        None => Ok(None),
    }
}

impl Node {
    /// A packet that tells the period's cut, where the node has learned it.
    fn decided(&self, period: Period) -> Result<Option<Packet>, AllocError>
        ensures { IfOk result (λ packet. option_map packet_of packet
            ≡ option_map (λ cut. Decided period cut)
            (slice_get self.now.node.kept.learned period)) }
    {
        match self.learned(period.number()) {
            Some(cut) => Ok(Some(Packet::Decided {
                period,
                cut: Arc::try_clone(cut)?,
            })),
            None => Ok(None),
        }
    }

    /// A proposer asks node i for its promise. An observer makes none.
    pub(crate) fn on_prepare(
        &mut self,
        i: u8,
        period: Period,
        ballot: Ballot,
    ) -> Result<Option<Packet>, AllocError>
        requires { IsBallotNumber ballot }
        ensures does { IfOk result
            (λ sends. (base : ℕ) → Does base i (Prepare period ballot) self.old self.new
            (option_map packet_of sends) None) }
        ensures kept { OnErr result (self.new ≡ self.old) }
    {
        if !self.votes(i) || !self.promises(period, ballot) {
            return self.decided(period);
        }
        let kept = &mut self.kept;
        let vote = share_vote(kept.acceptor.vote())?;
        kept.acceptor.on_prepare(ballot);
        Ok(Some(Packet::Promise {
            from: i,
            period,
            ballot,
            vote,
        }))
    }

    /// A proposer asks node i to accept its cut. An observer does not.
    pub(crate) fn on_accept(
        &mut self,
        i: u8,
        period: Period,
        ballot: Ballot,
        cut: &Arc<Cut>,
    ) -> Result<Option<Packet>, AllocError>
        requires ballot { IsBallotNumber ballot }
        requires cut { length (arc_value cut.now) ≡ self.old.agents }
        ensures does { IfOk result
            (λ sends. (base : ℕ) → Does base i
            (Accept period ballot (arc_value cut.now)) self.old self.new
            (option_map packet_of sends) None) }
        ensures kept { OnErr result (self.new ≡ self.old) }
    {
        if !self.votes(i) || !self.accepts(period, ballot) {
            return self.decided(period);
        }
        let vote = Vote {
            ballot,
            cut: Arc::try_clone(cut)?,
        };
        let cut = Arc::try_clone(cut)?;
        let kept = &mut self.kept;
        kept.acceptor.on_accept(vote);
        Ok(Some(Packet::Accepted {
            from: i,
            period,
            ballot,
            cut,
        }))
    }
}
