//! A store: which batches it has, and what is added to it and shared of it.

ghost use Rattle.std.specs.Prelude.{◌≡◌, ℕ, ◌+◌, true, ◌≤◌, ◌<◌, ◌↔◌, length, IfOk, IfErr, [], None, Some, IsTrue, MatchOption};
ghost use Rattle.std.specs.Option.{option_copied, option_map, is_some};
ghost use Rattle.std.specs.Arc.{arc_value};
ghost use Rattle.metering_model.specs.Holding.{held, put, up_to};
ghost use Rattle.metering_model.specs.Limits.{last_sequence, most_agents};
ghost use Rattle.batch_view.specs.Batches.{batch_of};
ghost use Rattle.batch_store.specs.Stores.{IsStored};
ghost use Rattle.batch_store.specs.Inner.Amenders.{IsLastAmender, NoneAmends};

use crate::indexed::IndexedShelf;
use crate::walk::{Batches, are_same};
use batch_view::{BatchView, OwnedBatch};
use period_cut::Cut;
use std::alloc::{AllocError, Global};
use std::marker::Model;
use std::sync::Arc;

/// The batches of 1 to 64 agents, at most one for each agent and sequence.
#[derive(Drop)]
pub struct Store {
    shelves: Vec<IndexedShelf>,
}

impl Model for Store {
    ghost use Rattle.batch_store.specs.Stores.{Stored};
    ghost use Rattle.batch_store.specs.Inner.Shelves.{stored_on, IsStore};

    ghost Value = { Stored };

    ghost view = { λ s. stored_on s.shelves.items };

    ghost invariant = { λ s. IsStore s.shelves.items };
}

impl Store {
    /// A store of so many agents, from 1 to 64, without batches. An error is an allocation failure.
    pub fn new(alloc: Global, agents: u8) -> Result<Store, AllocError>
        requires from { 1 ≤ agents }
        requires to { agents ≤ most_agents }
        ensures { IfOk result (λ store. store ≡ record { agents = agents; batches = [] }) }
    {
        let mut shelves = Vec::with_capacity(alloc, usize::from(agents))?;
        for _ in 0..agents {
            shelves.push(IndexedShelf::new(alloc))?;
        }
        Ok(Store { shelves })
    }

    /// The number of agents, from 1 to 64. The batches are a holding of theirs.
    pub fn agents(&self) -> u8
        ensures value { result ≡ self.now.agents }
        ensures stored { IsStored self.now }
    {
        self.shelves.len() as u8
    }

    /// Adds a batch and returns true; where its agent has one of its sequence, that one stays, and false is returned.
    /// An error is an allocation failure, and leaves the store as it was. The batch has to be of an agent of the store.
    pub fn put(&mut self, batch: Arc<OwnedBatch>) -> Result<bool, AllocError>
        requires { (batch_of (arc_value batch)).agent ≤ self.old.agents }
        ensures added { IfOk result (λ added. IsTrue added
            ↔ (held self.old.batches (batch_of (arc_value batch)).agent
            (batch_of (arc_value batch)).seq ≡ None)) }
        ensures batches { IfOk result (λ _. self.new
            ≡ record {
              agents = self.old.agents;
              batches = put self.old.batches (batch_of (arc_value batch));
            }) }
        ensures kept { IfErr result (λ _. self.new ≡ self.old) }
    {
        let agent = batch.view().agent();
        self.shelves[usize::from(agent) - 1].put(batch)
    }

    /// The batch of an agent at a sequence; None where it is absent. The agent has to be one of the store.
    pub fn get(&self, agent: u8, seq: u32) -> Option<&OwnedBatch>
        requires from { 1 ≤ agent }
        requires to { agent ≤ self.now.agents }
        ensures { option_map batch_of (option_copied result) ≡ held self.now.batches agent seq }
    {
        self.shelves[usize::from(agent) - 1].get(seq)
    }

    /// The batch of an agent at a sequence, which has to be there.
    pub fn batch_at(&self, agent: u8, seq: u32) -> BatchView<'_>
        requires from { 1 ≤ agent }
        requires to { agent ≤ self.now.agents }
        requires there { is_some (held self.now.batches agent seq) ≡ true }
        ensures held { held self.now.batches agent seq ≡ Some (batch_of result) }
        ensures agent { (batch_of result).agent ≡ agent }
        ensures seq { (batch_of result).seq ≡ seq }
    {
        self.get(agent, seq).unwrap().view()
    }

    /// The batches, by agent and then by sequence.
    pub fn batches(&self) -> Batches<'_>
        ensures { result ≡ self.now.batches }
    {
        Batches::of(self.shelves.as_slice())
    }

    /// Whether both have as many agents and the same batches.
    pub fn same(&self, other: &Store) -> bool
        ensures { IsTrue result ↔ (self.now ≡ other.now) }
    {
        self.agents() == other.agents() && are_same(self.batches(), other.batches())
    }

    /// The least sequence, from 1 to 1,000,001, at which an agent has no batch.
    pub fn first_absent(&self, agent: u8) -> u32
        requires from { 1 ≤ agent }
        requires to { agent ≤ self.now.agents }
        ensures absent { held self.now.batches agent result ≡ None }
        ensures below { (seq : ℕ) → 1 ≤ seq → seq < result
            → is_some (held self.now.batches agent seq) ≡ true }
        ensures range { (1 ≤ result) × (result ≤ last_sequence + 1) }
    {
        self.shelves[usize::from(agent) - 1].first_absent()
    }

    /// Of the batches of an agent after a sequence and up to another, one such that none after it amends the batch at
    /// the first; None where none does.
    pub(crate) fn last_amender(&self, agent: u8, seq: u32, upto: u32) -> Option<u32>
        requires from { 1 ≤ agent }
        requires to { agent ≤ self.now.agents }
        ensures { MatchOption result (NoneAmends (held self.now.batches agent) seq seq upto)
            (IsLastAmender (held self.now.batches agent) seq upto) }
    {
        self.shelves[usize::from(agent) - 1].last_amender(seq, upto)
    }

    /// A store of the batches up to a cut, which stay in this one too. An error is an allocation failure.
    pub fn share(&self, alloc: Global, upto: &Cut) -> Result<Store, AllocError>
        requires { length upto.now ≡ self.now.agents }
        ensures { IfOk result (λ part. part
            ≡ record { agents = self.now.agents; batches = up_to upto.now self.now.batches }) }
    {
        let mut shelves = Vec::with_capacity(alloc, self.shelves.len())?;
        for (index, shelf) in self.shelves.iter().enumerate() {
            shelves.push(shelf.share(alloc, upto.get(index as u8 + 1))?)?;
        }
        Ok(Store { shelves })
    }
}
