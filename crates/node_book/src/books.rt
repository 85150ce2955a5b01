//! A group, and the history that led it where it is.

ghost use Rattle.std.specs.Prelude.{◌≡◌, ◌↔◌, ◌+◌, ◌≤◌, ◌++◌, ◌∷◌, [], length, map, IfOk, IsTrue, OnErr};
ghost use Rattle.std.specs.Arc.{arc_value};
ghost use Rattle.metering_model.specs.Limits.{most_agents, most_nodes};
ghost use Rattle.metering_model.specs.World.{opening};
ghost use Rattle.metering_model.specs.Step.{step};
ghost use Rattle.metering_model.specs.History.{IsLegal};
ghost use Rattle.group_laws.specs.Headline.{HoldsAfter};
ghost use Rattle.group_events.specs.Events.{event_of};
ghost use Rattle.group_core.specs.Headline.{IsUnchangedAt};
ghost use Rattle.group_core.specs.Words.{ChargesAll};
ghost use Rattle.node_book.specs.Books.{opened};
ghost use Rattle.node_book.specs.Kept.{entry_of, told_of};

use crate::{Entry, Receipt};
use group_core::{Sheet, World, laws};
use group_events::Event;
use metering_model::Worker;
use sheet_text::Issuer;
use std::alloc::{AllocError, Global};
use std::marker::Model;
use std::sync::Arc;

/// A group, and what was done to it since it was opened. The history is legal: one thread could have made it, and it
/// leads to the book's world.
#[derive(Drop)]
pub struct Book {
    pub(crate) voters: u8,
    pub(crate) observers: u8,
    pub(crate) agents: u8,
    pub(crate) sheet: Arc<Sheet>,
    pub(crate) issuer: Arc<Issuer>,
    pub(crate) history: Vec<Entry>,
    world: World,
}

impl Model for Book {
    ghost use Rattle.std.specs.Prelude.{map};
    ghost use Rattle.std.specs.Arc.{arc_value};
    ghost use Rattle.metering_model.specs.World.{opening};
    ghost use Rattle.metering_model.specs.History.{IsLegal};
    ghost use Rattle.node_book.specs.Books as model;
    ghost use Rattle.node_book.specs.Kept.{entry_of};

    ghost Value = { model.Book };

    ghost view = { λ b. record {
      voters = b.voters;
      observers = b.observers;
      agents = b.agents;
      sheet = arc_value b.sheet;
      issuer = arc_value b.issuer;
      history = map entry_of b.history.items;
      world = b.world;
    } };

    ghost invariant = { λ b.
        IsLegal (opening b.voters b.observers b.agents (arc_value b.sheet) (arc_value b.issuer))
        (map entry_of b.history.items) b.world };
}

impl Book {
    /// A book of so many voters, at least 1, and observers, at most 99 with the voters, and 1 to 64 agents, in which
    /// nothing was done yet. An error is an allocation failure.
    pub fn new(
        alloc: Global,
        voters: u8,
        observers: u8,
        agents: u8,
        sheet: Arc<Sheet>,
        issuer: Arc<Issuer>,
    ) -> Result<Book, AllocError>
        requires voters_from { 1 ≤ voters }
        requires nodes_to { voters + observers ≤ most_nodes }
        requires agents_from { 1 ≤ agents }
        requires agents_to { agents ≤ most_agents }
        ensures { IfOk result (λ book. book ≡ record {
          voters = voters;
          observers = observers;
          agents = agents;
          sheet = arc_value sheet;
          issuer = arc_value issuer;
          history = [];
          world = opening voters observers agents (arc_value sheet) (arc_value issuer);
        }) }
    {
        let kept_sheet = Arc::try_clone(&sheet)?;
        let kept_issuer = Arc::try_clone(&issuer)?;
        let world = World::new(alloc, voters, observers, agents, sheet, issuer)?;
        Ok(Book {
            voters,
            observers,
            agents,
            sheet: kept_sheet,
            issuer: kept_issuer,
            history: Vec::new(alloc),
            world,
        })
    }

    /// What was done, in the one order in which it was done.
    pub fn history(&self) -> &[Entry]
        ensures { map entry_of result.now ≡ self.now.history }
    {
        &self.history
    }

    /// The history is legal, and the headline holds of its replies. The call does nothing.
    pub fn legal(&self)
        ensures history { IsLegal (opened self.now) self.now.history self.now.world }
        ensures headline { HoldsAfter self.now.voters self.now.observers self.now.agents
            self.now.sheet self.now.issuer
            (map (λ e. e.event) self.now.history)
            (map (λ e. e.reply) self.now.history) self.now.world }
    {
        // For the proof alone: with the field comes what the type keeps of it.
        let _ = &self.history;
        laws::runs();
    }

    /// Whether the file of a period, as a node has learned it, charges all that is journaled: of each agent each batch above
    /// the cut before, up to the first that is not due in the month. An error is an allocation failure.
    pub(crate) fn charges_all(
        &self,
        alloc: Global,
        node: u8,
        period: u16,
    ) -> Result<bool, AllocError>
        ensures { IfOk result (λ all. IsTrue all ↔ ChargesAll self.now.world node period) }
    {
        self.world.charges_all(alloc, node, period)
    }

    /// Does one event, and appends it to the history; the receipt has its index there and its reply. A refused event,
    /// an answered export and a kept text leave the world as it was.
    ///
    /// An error is an allocation failure, and leaves world and history as they were.
    pub fn act(&mut self, alloc: Global, who: Worker, event: Event) -> Result<Receipt, AllocError>
        ensures history { IfOk result (λ _. self.new.history
            ≡ self.old.history ++ record {
              who = who;
              event = event_of event;
              reply = (step self.old.world (event_of event)).0;
            } ∷ []) }
        ensures world { IfOk result
            (λ _. self.new.world ≡ (step self.old.world (event_of event)).1) }
        ensures unchanged { IfOk result
            (λ receipt. IsUnchangedAt (told_of receipt).reply self.old.world self.new.world) }
        ensures group { opened self.new ≡ opened self.old }
        ensures receipt { IfOk result (λ receipt. told_of receipt
            ≡ record {
              index = length self.old.history;
              reply = (step self.old.world (event_of event)).0;
            }) }
        ensures kept { OnErr result (self.new ≡ self.old) }
    {
        self.history.reserve(1)?;
        let reply = self.world.step(alloc, &event)?;
        // Want of memory is told of an export or a kept text alone, and these have changed nothing.
        let told = reply.copy(alloc)?;
        let index = self.history.len();
        self.history.push_reserved(Entry { who, event, reply });
        Ok(Receipt { index, reply: told })
    }
}
