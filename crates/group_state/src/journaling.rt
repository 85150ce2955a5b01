//! A batch is journaled.

ghost use Rattle.std.specs.Prelude.{◌≡◌, ◌≤◌, ◌++◌, ◌∷◌, [], true, None, Some, Ok, Err, map, IfOk, OnErr, MatchOption};
ghost use Rattle.std.specs.Option.{option_map};
ghost use Rattle.std.specs.Arc.{arc_value};
ghost use Rattle.metering_model.specs.Holding.{held, placed, put};
ghost use Rattle.metering_model.specs.JournalRules.{MeetsJournalRules, first_broken, next_seq};
ghost use Rattle.metering_model.specs.World.{CarriesBatch, Journal};
ghost use Rattle.metering_model.specs.Step.{on_batch, step, unless_broken};
ghost use Rattle.group_events.specs.Batches.{batch_of};
ghost use Rattle.journal_rules.specs.FirstBad.{first_bad};
ghost use Rattle.group_node.specs.Packets.{packet_of};
ghost use Rattle.group_events.specs.Events.{event_of, offer_of};
ghost use Rattle.group_events.specs.Replies.{reply_of};
ghost use Rattle.group_state.specs.Reached.{IsReached};
ghost use Rattle.group_state.specs.BadRecords.{bad_in, bad_record, is_next};
ghost use Rattle.group_state.specs.Inner.Allowed.{MayJournal};

use crate::GroupState;
use group_events::{BatchView, Event, Offer, OwnedBatch, Reply};
use group_node::Packet;
use journal_rules::{Store, first_bad, first_broken};
use metering_model::{BrokenRule, Refusal};
use std::alloc::AllocError;
use std::sync::Arc;

/// Puts a batch into the journals and into a packet of its own, where there is memory for both.
fn keep_batch(
    journals: &mut Store,
    packets: &mut Vec<Packet>,
    batch: &Arc<OwnedBatch>,
) -> Result<(), AllocError>
    requires { (batch_of (arc_value batch.now)).agent ≤ journals.old.agents }
    ensures journals { IfOk result (λ _. journals.new
        ≡ record {
          agents = journals.old.agents;
          batches = put journals.old.batches
              (batch_of (arc_value batch.now));
        }) }
    ensures packets { IfOk result (λ _. map packet_of packets.new.items
        ≡ map packet_of packets.old.items ++ CarriesBatch (batch_of (arc_value batch.now)) ∷ []) }
    ensures journals_kept { OnErr result (journals.new ≡ journals.old) }
    ensures packets_kept { OnErr result (packets.new.items ≡ packets.old.items) }
{
    packets.reserve(1)?;
    let stored = Arc::try_clone(batch)?;
    let sent = Arc::try_clone(batch)?;
    journals.put(stored)?;
    packets.push_reserved(Packet::Batch(sent));
    Ok(())
}

/// How a broken rule is told.
fn refusal_of(rule: BrokenRule) -> Refusal
    ensures { unless_broken (Some rule) ≡ Err result }
{
    match rule {
        BrokenRule::BadTarget => Refusal::BadTarget,
        BrokenRule::Unpriced => Refusal::Unpriced,
    }
}

impl GroupState {
    /// The sequence of an agent's next batch: the first that is absent, since journals have no gap.
    fn next_seq(&self, agent: u8) -> u32
        requires rules { MeetsJournalRules self.now.sheet self.now.journals }
        requires from { 1 ≤ agent }
        requires to { agent ≤ self.now.agents }
        ensures next { result ≡ next_seq self.now.journals agent }
        ensures absent { held self.now.journals agent result ≡ None }
    {
        self.journals.first_absent(agent)
    }

    /// The rule of the journals that a batch breaks, which they have not.
    fn broken_rule(&self, batch: &BatchView<'_>) -> Option<BrokenRule>
        requires agent { (batch_of batch.now).agent ≤ self.now.agents }
        requires new { held self.now.journals (batch_of batch.now).agent (batch_of batch.now).seq
            ≡ None }
        ensures { result ≡ first_broken self.now.sheet (put self.now.journals (batch_of batch.now))
            (placed (batch_of batch.now)) }
    {
        first_broken(&self.journals, &self.sheet, batch)
    }

    /// Why a batch is not journaled; None where it is its agent's next, breaks no rule, and there is room for its
    /// packet.
    fn journal_refusal(&self, batch: &OwnedBatch) -> Option<Refusal>
        requires { MeetsJournalRules self.now.sheet self.now.journals }
        ensures { MatchOption result
            (MayJournal self.now (batch_of batch.now))
            (λ refusal. on_batch self.now (batch_of batch.now) ≡ Err refusal) }
    {
        let view = batch.view();
        let agent = view.agent();
        if agent > self.agents() {
            return Some(Refusal::NoAgent);
        }
        let wanted = self.next_seq(agent);
        if view.seq() != wanted {
            return Some(Refusal::WrongSeq { wanted });
        }
        if let Some(rule) = self.broken_rule(&view) {
            return Some(refusal_of(rule));
        }
        if self.has_room() {
            None
        } else {
            Some(Refusal::WorldFull)
        }
    }

    /// Whether a batch is of an agent of the group, and comes next in its journal, which so lacks it.
    fn is_next(&self, batch: &BatchView<'_>) -> bool
        requires { MeetsJournalRules self.now.sheet self.now.journals }
        ensures next { result ≡ is_next self.now (batch_of batch.now) }
        ensures agent { result ≡ true → (batch_of batch.now).agent ≤ self.now.agents }
        ensures absent { result ≡ true
            → held self.now.journals (batch_of batch.now).agent (batch_of batch.now).seq ≡ None }
    {
        let agent = batch.agent();
        if agent > self.agents() {
            return false;
        }
        batch.seq() == self.next_seq(agent)
    }

    /// The index of the first bad record of a batch that its journal lacks.
    fn first_bad(&self, batch: &BatchView<'_>) -> Option<u16>
        requires agent { (batch_of batch.now).agent ≤ self.now.agents }
        requires new { held self.now.journals (batch_of batch.now).agent (batch_of batch.now).seq
            ≡ None }
        ensures { result ≡ option_map (λ p. p.index)
            (first_bad self.now.sheet (put self.now.journals (batch_of batch.now))
            (placed (batch_of batch.now))) }
    {
        match first_bad(&self.journals, &self.sheet, batch) {
            Some((index, _)) => Some(index),
            None => None,
        }
    }

    /// The index of the first bad record of a batch that comes next.
    fn bad_in(&self, batch: &BatchView<'_>) -> Option<u16>
        requires { MeetsJournalRules self.now.sheet self.now.journals }
        ensures { result ≡ option_map (λ p. p.index) (bad_in self.now (batch_of batch.now)) }
    {
        if self.is_next(batch) {
            self.first_bad(batch)
        } else {
            None
        }
    }

    /// The index of the record for which an event's batch is refused where it comes next in its agent's journal: the first that
    /// breaks a rule beside the journals. Nothing changes, and no memory is taken.
    pub fn bad_record(&self, event: &Event) -> Option<u16>
        requires reached { IsReached self.now }
        ensures { result ≡ option_map (λ p. p.index) (bad_record self.now (event_of event.now)) }
    {
        match event {
            Event::Journal(Offer::Good(batch)) => {
                // For the proof alone: its clause says that the bytes are a batch.
                let _ = batch.bytes();
                self.bad_in(&batch.view())
            }
            _ => None,
        }
    }

    /// Journals a batch that may be journaled.
    fn take(&mut self, batch: &Arc<OwnedBatch>) -> Result<Reply, AllocError>
        requires { MayJournal self.old (batch_of (arc_value batch.now)) }
        ensures ok { IfOk result (λ reply. on_batch self.old (batch_of (arc_value batch.now))
            ≡ Ok (reply_of reply, self.new)) }
        ensures kept { OnErr result (self.new ≡ self.old) }
    {
        let packet = self.packets.len() as u32;
        keep_batch(&mut self.journals, &mut self.packets, batch)?;
        Ok(Reply::Journaled { packet })
    }

    /// Journals a batch that is its agent's next and breaks no rule, and sends it in a packet. An error is an
    /// allocation failure, and leaves the world as it was.
    pub fn journal(&mut self, offer: &Offer) -> Result<Reply, AllocError>
        requires reached { IsReached self.old }
        ensures ok { IfOk result
            (λ reply. (reply_of reply, self.new) ≡ step self.old (Journal (offer_of offer.now))) }
        ensures kept { OnErr result (self.new ≡ self.old) }
    {
        let batch = match offer {
            Offer::Good(batch) => batch,
            Offer::Bad(fault) => return Ok(Reply::Refused(Refusal::BadBatch(*fault))),
        };
        // For the proof alone: its clause says that the bytes are a batch.
        let _ = batch.bytes();
        if let Some(refusal) = self.journal_refusal(batch) {
            return Ok(Reply::Refused(refusal));
        }
        let reply = self.take(batch)?;
        Ok(reply)
    }
}
