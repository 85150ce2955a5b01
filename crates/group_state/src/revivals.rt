//! The text of what a node keeps, and its revival from that.

ghost use Rattle.std.specs.Prelude.{◌≡◌, ℕ, List, Err, IfOk, MatchOption, MatchResult, Some, slice_get};
ghost use Rattle.metering_model.specs.World.{Keep, KeptText, Refused, Restart, Revive, voter_count};
ghost use Rattle.metering_model.specs.Step.{on_keep, on_revival, step};
ghost use Rattle.group_events.specs.Replies.{reply_of};
ghost use Rattle.group_state.specs.Reached.{IsReached};
ghost use Rattle.group_events.specs.Offers.{kept_offer};
ghost use Rattle.group_state.specs.Inner.Members.{IsMember};

use crate::GroupState;
use group_events::{KeptOffer, Reply};
use group_node::Node;
use metering_model::{KeptTextFault, Refusal};
use std::alloc::{AllocError, Global};

impl GroupState {
    /// The node whose text a `keep` tells, or why it is refused.
    fn kept_by(&self, node: u8) -> Result<&Node, Refusal>
        ensures { MatchResult result
            (λ n. (slice_get self.now.nodes node ≡ Some n.now.node)
            × IsMember (voter_count self.now) self.now.agents n.now)
            (λ refusal. on_keep self.now node ≡ Err refusal) }
    {
        match self.node(node) {
            Some(node) => Ok(node),
            None => Err(Refusal::NoNode),
        }
    }

    /// Why `keep` refuses to tell what a node keeps, or None where it gives the text, which is not made here. No memory is
    /// taken.
    pub fn keep_refusal(&self, node: u8) -> Option<Refusal>
        ensures { MatchOption result
            ((text : List ℕ) × ((KeptText text, self.now) ≡ step self.now (Keep node)))
            (λ why. (Refused why, self.now) ≡ step self.now (Keep node)) }
    {
        match self.kept_by(node) {
            Ok(_) => None,
            Err(refusal) => Some(refusal),
        }
    }

    /// Replies with the text of what a node keeps over a restart. An error is an allocation failure.
    pub fn keep(&self, alloc: Global, node: u8) -> Result<Reply, AllocError>
        ensures { IfOk result (λ reply. (reply_of reply, self.now) ≡ step self.now (Keep node)) }
    {
        match self.kept_by(node) {
            Ok(node) => Ok(Reply::KeptText(node.write_kept(alloc)?)),
            Err(refusal) => Ok(Reply::Refused(refusal)),
        }
    }

    /// Why a node is not revived from what was offered, if it is not.
    fn revival_refusal(&self, node: u8, offer: &KeptOffer) -> Option<Refusal>
        requires reached { IsReached self.now }
        ensures { MatchOption result
            (step self.now (Revive node (kept_offer offer.now)) ≡ step self.now (Restart node))
            (λ refusal. on_revival self.now node (kept_offer offer.now) ≡ Err refusal) }
    {
        let Some(kept_by) = self.node(node) else {
            return Some(Refusal::NoNode);
        };
        match offer {
            KeptOffer::Good(kept) => {
                if kept_by.keeps(kept) {
                    None
                } else {
                    Some(Refusal::NotKept)
                }
            }
            KeptOffer::Bad { code, line } => Some(Refusal::BadKept(KeptTextFault {
                code: *code,
                line: *line,
            })),
        }
    }

    /// Restarts a node from the text of what it keeps now; any other text is refused, and changes nothing.
    pub fn revive(&mut self, alloc: Global, node: u8, offer: &KeptOffer) -> Reply
        requires reached { IsReached self.old }
        ensures { (reply_of result, self.new) ≡ step self.old (Revive node (kept_offer offer.now)) }
    {
        if let Some(refusal) = self.revival_refusal(node, offer) {
            return Reply::Refused(refusal);
        }
        self.restart(alloc, node)
    }
}
