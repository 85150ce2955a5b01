//! An agent as a process of its own: it journals batches under sequence numbers.

ghost use Rattle.std.specs.Prelude.{◌≡◌, ◌+◌, ◌≤◌, true, false, IfOk, OnErr, None, Some, Ok, Err, MatchOption};
ghost use Rattle.std.specs.Arc.{arc_value};
ghost use Rattle.metering_model.specs.Holding.{held, is_batch_at, put};
ghost use Rattle.metering_model.specs.Limits.{last_sequence};
ghost use Rattle.metering_model.specs.JournalRules.{next_seq};
ghost use Rattle.metering_model.specs.KeptText.{kept_text};
ghost use Rattle.metering_model.specs.Step.{unless_broken};
ghost use Rattle.process_laws.specs.LocalSteps.{JournalBatch, journal_kept, journal_refusal};
ghost use Rattle.group_events.specs.Batches.{batch_of};
ghost use Rattle.group_events.specs.Events.{offer_of};
ghost use Rattle.group_process.specs.Added.{AddsJust};
ghost use Rattle.group_process.specs.Journals.{DoesAsAgent, is_empty_acceptor, is_journal_of, journaled_answer, keeps_journal_of};
ghost use Rattle.group_process.specs.Selves.{kept_of_agent};
ghost use Rattle.log_text.specs.LogText.{Takes};

use crate::groups::Group;
use crate::refusals::ProcessRefusal;
use group_events::{Kept, Offer, OwnedBatch};
use journal_rules::{Store, first_broken};
use metering_model::{BrokenRule, Refusal};
use node_kept::{Acceptor, Parts};
use std::alloc::{AllocError, Global};
use std::marker::Model;
use std::sync::Arc;

/// An agent of a group as a process of its own: it has its journal, and nothing else.
#[derive(Drop)]
pub struct AgentProcess {
    group: Group,
    number: u8,
    kept: Parts,
}

impl Model for AgentProcess {
    ghost use Rattle.std.specs.Prelude.{◌≡◌, true};
    ghost use Rattle.process_laws.specs.LocalSteps.{journal_kept};
    ghost use Rattle.group_process.specs.Journals.{is_journal_of};
    ghost use Rattle.group_process.specs.Selves.{AgentSelf, IsAgentInGroup};

    ghost Value = { AgentSelf };

    ghost view = { λ a. record {
      group = a.group;
      number = a.number;
      journal = a.kept.kept.holding;
    } };

    ghost invariant = { λ a. (a.kept.agents ≡ a.group.agents)
        × (a.kept.kept ≡ journal_kept a.kept.kept.holding)
        × (is_journal_of a.number a.kept.kept.holding ≡ true)
        × IsAgentInGroup (record {
          group = a.group;
          number = a.number;
          journal = a.kept.kept.holding;
        }) };
}

/// A batch that an agent journaled. What is given out is a packet that carries it, and what the agent keeps more than before
/// is that batch.
#[derive(Drop)]
pub struct Journaled {
    pub batch: Arc<OwnedBatch>,
}

/// Whether a batch is of that agent and sequence.
fn is_batch_at(agent: u8, seq: u32, batch: &OwnedBatch) -> bool
    ensures value { result ≡ is_batch_at agent seq (batch_of batch.now) }
    ensures most { result ≡ true → seq ≤ last_sequence }
{
    let view = batch.view();
    view.agent() == agent && view.seq() == seq
}

/// Whether the batches of a store are the agent's alone, counted from 1 without a gap.
fn is_journal_of(agent: u8, store: &Store) -> bool
    ensures { result ≡ is_journal_of agent store.now.batches }
{
    let mut next = 1;
    let mut batches = store.batches();
    while let Some(batch) = batches.next() {
        if !is_batch_at(agent, next, batch) {
            return false;
        }
        next += 1;
    }
    true
}

/// Whether nothing was promised and nothing accepted.
fn is_empty(acceptor: &Acceptor) -> bool
    ensures { result ≡ is_empty_acceptor acceptor.now }
{
    acceptor.promised().is_none() && acceptor.vote().is_none()
}

/// Whether what is kept is a journal of the agent, and nothing of a node.
fn keeps_journal_of(agent: u8, kept: &Parts) -> bool
    ensures { result ≡ keeps_journal_of agent kept.now.kept }
{
    kept.round == 0
        && kept.learned.is_empty()
        && is_empty(&kept.acceptor)
        && is_journal_of(agent, &kept.store)
}

/// Why a batch that breaks a rule is not journaled; None where it breaks none.
fn unless_broken(broken: Option<BrokenRule>) -> Option<Refusal>
    ensures { MatchOption result (unless_broken broken ≡ Ok tt)
        (λ refusal. unless_broken broken ≡ Err refusal) }
{
    match broken {
        Some(BrokenRule::BadTarget) => Some(Refusal::BadTarget),
        Some(BrokenRule::Unpriced) => Some(Refusal::Unpriced),
        None => None,
    }
}

impl AgentProcess {
    /// The agent of that number, from 1, goes on with what it stored last. None where that is no journal of the agent: a round
    /// was begun, something was promised, accepted or learned, or there is a batch of another agent, or a gap.
    pub fn go_on(group: Group, number: u8, kept: Kept) -> Option<AgentProcess>
        requires from { 1 ≤ number }
        requires to { number ≤ group.agents }
        requires kept { kept.agents ≡ group.agents }
        ensures { MatchOption result (keeps_journal_of number kept.kept ≡ false)
            (λ agent. (agent ≡ record {
              group = group;
              number = number;
              journal = kept.kept.holding;
            }) × (kept.kept ≡ journal_kept kept.kept.holding)
            × (keeps_journal_of number kept.kept ≡ true)) }
    {
        let kept = kept.into_parts();
        if keeps_journal_of(number, &kept) {
            Some(AgentProcess {
                group,
                number,
                kept,
            })
        } else {
            None
        }
    }

    /// The agent's group.
    pub fn group(&self) -> &Group
        ensures { result.now ≡ self.now.group }
    {
        &self.group
    }

    /// The agent's number, from 1.
    pub fn number(&self) -> u8
        ensures { result ≡ self.now.number }
    {
        self.number
    }

    /// The sequence of the agent's next batch, from 1 to 1,000,001.
    pub fn next_seq(&self) -> u32
        ensures next { result ≡ next_seq self.now.journal self.now.number }
        ensures absent { held self.now.journal self.now.number result ≡ None }
        ensures range { (1 ≤ result) × (result ≤ last_sequence + 1) }
    {
        let kept = &self.kept;
        kept.store.first_absent(self.number)
    }

    /// Why a batch is not journaled; None where it is the agent's next and breaks no rule.
    fn refusal(&self, batch: &OwnedBatch) -> Option<Refusal>
        ensures { MatchOption result
            (journal_refusal self.now.group self.now.number self.now.journal (batch_of batch.now)
            ≡ Ok tt)
            (λ refusal. journal_refusal self.now.group self.now.number self.now.journal
            (batch_of batch.now) ≡ Err refusal) }
    {
        let view = batch.view();
        if view.agent() != self.number {
            return Some(Refusal::NoAgent);
        }
        let wanted = self.next_seq();
        if view.seq() != wanted {
            return Some(Refusal::WrongSeq { wanted });
        }
        let kept = &self.kept;
        unless_broken(first_broken(&kept.store, self.group.sheet(), &view))
    }

    /// Puts a batch into the journal that may be journaled, and gives it out. An error is an allocation failure, and leaves the
    /// agent as it was.
    fn keep(&mut self, batch: &Arc<OwnedBatch>) -> Result<Journaled, AllocError>
        requires { journal_refusal self.old.group self.old.number self.old.journal
            (batch_of (arc_value batch.now)) ≡ Ok tt }
        ensures journal { IfOk result (λ _. self.new ≡ record {
          group = self.old.group;
          number = self.old.number;
          journal = put self.old.journal (batch_of (arc_value batch.now));
        }) }
        ensures given { IfOk result
            (λ journaled. arc_value journaled.batch ≡ arc_value batch.now) }
        ensures adds { IfOk result (λ _. AddsJust (kept_of_agent self.old)
            (kept_of_agent self.new) (Some (Takes (batch_of (arc_value batch.now))))) }
        ensures kept { OnErr result (self.new ≡ self.old) }
    {
        // For the proof alone: its clause says that the bytes are a batch.
        let _ = batch.bytes();
        let Ok(given) = Arc::try_clone(batch) else {
            return Err(AllocError);
        };
        let Ok(stored) = Arc::try_clone(batch) else {
            return Err(AllocError);
        };
        let kept = &mut self.kept;
        let Ok(_) = kept.store.put(stored) else {
            return Err(AllocError);
        };
        Ok(Journaled { batch: given })
    }

    /// Journals a batch that is the agent's next and breaks no rule. An error is an allocation failure, and leaves the agent as
    /// it was.
    pub fn journal(
        &mut self,
        offer: &Offer,
    ) -> Result<Result<Journaled, ProcessRefusal>, AllocError>
        ensures does { IfOk result (λ answer. DoesAsAgent (JournalBatch (offer_of offer.now))
            self.old self.new (journaled_answer answer)) }
        ensures adds { IfOk result (λ answer. IfOk answer (λ journaled.
            AddsJust (kept_of_agent self.old) (kept_of_agent self.new)
            (Some (Takes (batch_of (arc_value journaled.batch)))))) }
        ensures kept { OnErr result (self.new ≡ self.old) }
    {
        let batch = match offer {
            Offer::Good(batch) => batch,
            Offer::Bad(fault) => return Ok(Err(ProcessRefusal::OfModel(Refusal::BadBatch(*fault)))),
        };
        // For the proof alone: its clause says that the bytes are a batch.
        let _ = batch.bytes();
        if let Some(refusal) = self.refusal(batch) {
            return Ok(Err(ProcessRefusal::OfModel(refusal)));
        }
        match self.keep(batch) {
            Ok(journaled) => Ok(Ok(journaled)),
            Err(failed) => Err(failed),
        }
    }

    /// The batch at a sequence of its journal, if it is there.
    pub fn journaled(&self, seq: u32) -> Option<&OwnedBatch>
        ensures { MatchOption result (held self.now.journal self.now.number seq ≡ None)
            (λ batch. held self.now.journal self.now.number seq ≡ Some (batch_of batch.now)) }
    {
        let kept = &self.kept;
        kept.store.get(self.number, seq)
    }

    /// The text of what the agent keeps. An error is an allocation failure.
    pub fn write_kept(&self, alloc: Global) -> Result<Vec<u8>, AllocError>
        ensures { IfOk result (λ text. text.items ≡ kept_text (kept_of_agent self.now)) }
    {
        self.kept.write(alloc)
    }
}
