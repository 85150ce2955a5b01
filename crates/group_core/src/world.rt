//! A group, whose type keeps that some run leads to it.

ghost use Rattle.std.specs.Prelude.{◌≡◌, ◌≢◌, ℕ, ◌+◌, ◌≤◌, List, Some, slice_get, IfOk, IsTrue, MatchOption, OnErr, [], ◌∷◌, ◌↔◌};
ghost use Rattle.std.specs.Option.{option_map};
ghost use Rattle.std.specs.Arc.{arc_value};
ghost use Rattle.metering_model.specs.Limits.{most_agents, most_nodes, most_packets};
ghost use Rattle.metering_model.specs.World.{Keep, KeptText, Node, KeptOffer, KeptGood, Refused, Revive, opening, voter_count};
ghost use Rattle.metering_model.specs.KeptText.{kept_text};
ghost use Rattle.metering_model.specs.Step.{kept_now, snapshot, step};
ghost use Rattle.group_laws.specs.Headline.{AtMostOneIsChosen};
ghost use Rattle.group_laws.specs.EveryRun.{KeepsLimits};
ghost use Rattle.group_laws.specs.Revivals.{refusal_of_other};
ghost use Rattle.group_state.specs.Words.{event_of, reply_of};
ghost use Rattle.group_state.specs.Reached.{IsReached};
ghost use Rattle.group_state.specs.BadRecords.{bad_record};
ghost use Rattle.group_state.specs.Charged.{ChargesAll};
ghost use Rattle.group_core.specs.Headline.{AreExportsOf, ChargesOnce, HasOneList, IsExportOf, IsLater, IsUnchangedAt, LearnsWhatIsChosen};

use group_state::{Event, GroupState, Reply, Snapshot};
use metering_model::Refusal;
use price_sheet::{Issuer, Sheet};
use std::alloc::{AllocError, Global};
use std::marker::Model;
use std::sync::Arc;

/// A group: sheet, issuer, journals, the packets that were ever sent, and the nodes, voters and then observers. Some
/// run leads to each world, so the headline holds of it.
#[derive(Drop)]
pub struct World {
    state: GroupState,
}

impl Model for World {
    ghost use Rattle.metering_model.specs.World as model;
    ghost use Rattle.group_state.specs.Reached.{IsReached};

    ghost Value = { model.World };

    ghost view = { λ w. w.state };

    ghost invariant = { λ w. IsReached w.state };
}

impl World {
    /// A group of so many voters, at least 1, and observers, at most 99 with the voters, and 1 to 64 agents, before any
    /// event. An error is an allocation failure.
    pub fn new(
        alloc: Global,
        voters: u8,
        observers: u8,
        agents: u8,
        sheet: Arc<Sheet>,
        issuer: Arc<Issuer>,
    ) -> Result<World, AllocError>
        requires voters_from { 1 ≤ voters }
        requires nodes_to { voters + observers ≤ most_nodes }
        requires agents_from { 1 ≤ agents }
        requires agents_to { agents ≤ most_agents }
        ensures { IfOk result (λ world. world
            ≡ opening voters observers agents (arc_value sheet) (arc_value issuer)) }
    {
        // For the proof alone: its clause says that the month may be a base month.
        let _ = sheet.base_month();
        let state = GroupState::new(alloc, voters, observers, agents, sheet, issuer)?;
        Ok(World { state })
    }

    /// Some run leads here. The call does nothing: its clause is what each world's type keeps.
    pub fn reached(&self)
        ensures { IsReached self.now }
    {
        // For the proof alone: with the field comes what the type keeps of it.
        let _ = &self.state;
    }

    /// Packets, ballots, cuts and holdings keep the limits that every run keeps. The call does nothing.
    pub fn limits(&self)
        ensures { (observers : ℕ)
            × KeepsLimits most_packets (voter_count self.now) observers self.now.agents self.now }
    {
        self.reached();
    }

    /// No period has two chosen cuts, the chosen ones are one growing list of which each node has learned a prefix, and
    /// each reading is charged as new at most once. The call does nothing.
    pub fn agreed(&self)
        ensures one_cut { AtMostOneIsChosen self.now }
        ensures learned { LearnsWhatIsChosen self.now }
        ensures cuts { HasOneList self.now }
        ensures charged_once { ChargesOnce self.now }
    {
        self.reached();
    }

    /// Does one event, and returns the reply. A refused event, an answered export and a kept text leave the world as it
    /// was. So does an error, which is an allocation failure. An answered export is of one of the chosen cuts and of
    /// the one before it. A node is revived from no text but that of what it keeps now.
    pub fn step(&mut self, alloc: Global, event: &Event) -> Result<Reply, AllocError>
        ensures ok { IfOk result
            (λ reply. (reply_of reply, self.new) ≡ step self.old (event_of event.now)) }
        ensures kept { OnErr result (self.new ≡ self.old) }
        ensures unchanged { IfOk result
            (λ reply. IsUnchangedAt (reply_of reply) self.old self.new) }
        ensures others { (node : ℕ) (n : Node) (offer : KeptOffer)
            → event_of event.now ≡ Revive node offer → slice_get self.old.nodes node ≡ Some n →
            offer ≢ KeptGood (kept_text (kept_now self.old n)) →
            IfOk result (λ reply. (reply_of reply ≡ Refused (refusal_of_other offer))
            × (self.new ≡ self.old)) }
        ensures exports { IfOk result (λ reply. AreExportsOf self.new (reply_of reply ∷ [])) }
        ensures later { IsLater self.old self.new }
    {
        self.state.step(alloc, event)
    }

    /// The sheet by which the group's usage is priced.
    pub fn sheet(&self) -> &Sheet
        ensures { result.now ≡ self.now.sheet }
    {
        self.state.sheet()
    }

    /// The index of the record for which an event's batch is refused where it comes next in its agent's journal: the first that
    /// breaks a rule beside the journals. Nothing changes, and no memory is taken.
    pub fn bad_record(&self, event: &Event) -> Option<u16>
        ensures { result ≡ option_map (λ p. p.index) (bad_record self.now (event_of event.now)) }
    {
        self.state.bad_record(event)
    }

    /// Why a node that is asked for the text of what it keeps refuses, or None where it gives the text. Nothing changes: the
    /// text is not made, and no memory is taken.
    pub fn keep_refusal(&self, node: u8) -> Option<Refusal>
        ensures { MatchOption result
            ((text : List ℕ) × ((KeptText text, self.now) ≡ step self.now (Keep node)))
            (λ why. (Refused why, self.now) ≡ step self.now (Keep node)) }
    {
        self.state.keep_refusal(node)
    }

    /// The reply to an export of a period at a node, or why it is refused: first for a node that is not there, then for
    /// a period that the node has not learned, then for a batch that it lacks. An error is an allocation failure.
    /// Nothing changes.
    pub fn snapshot(
        &self,
        alloc: Global,
        node: u8,
        period: u16,
    ) -> Result<Result<Snapshot, Refusal>, AllocError>
        ensures value { IfOk result (λ answer. answer ≡ snapshot self.now node period) }
        ensures export { IfOk result (λ answer. IfOk answer (λ taken. IsExportOf self.now taken)) }
    {
        self.state.snapshot(alloc, node, period)
    }

    /// Whether the file of a period, as a node has learned it, charges all that is journaled: of each agent each batch above
    /// the cut before, up to the first that is not due in the month. An error is an allocation failure.
    pub fn charges_all(&self, alloc: Global, node: u8, period: u16) -> Result<bool, AllocError>
        ensures { IfOk result (λ all. IsTrue all ↔ ChargesAll self.now node period) }
    {
        self.state.charges_all(alloc, node, period)
    }

    /// Drops the world. A crate above calls it in place of `drop`, for the prover's time alone (docs/DECISIONS.md).
    pub fn release(self) {}
}
