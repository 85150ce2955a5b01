//! The batches of one agent, with an index of those that amend earlier ones.

ghost use Rattle.std.specs.Prelude.{◌+◌, ◌∷◌, MatchOption, ◌≡◌, ℕ, true, ◌≤◌, ◌<◌, ◌↔◌, [], None, IfOk, IfErr, IsTrue};
ghost use Rattle.std.specs.Option.{option_copied, option_map, is_some};
ghost use Rattle.std.specs.Arc.{arc_value};
ghost use Rattle.metering_model.specs.Holding.{put};
ghost use Rattle.metering_model.specs.Limits.{last_sequence};
ghost use Rattle.batch_view.specs.Batches.{batch_of};
ghost use Rattle.batch_store.specs.Inner.Amenders.{IsLastAmender, NoneAmends};
ghost use Rattle.batch_store.specs.Inner.Shelves.{AreOf, at_seq, from_seq, up_to_seq};

use crate::amenders::Amenders;
use crate::shelf::Shelf;
use batch_view::OwnedBatch;
use std::alloc::{AllocError, Global};
use std::marker::Model;
use std::sync::Arc;

/// A shelf and the index of its batches: each batch that is there is listed at each earlier sequence that it amends.
#[derive(Drop)]
pub(crate) struct IndexedShelf {
    shelf: Shelf,
    amenders: Amenders,
}

impl Model for IndexedShelf {
    ghost use Rattle.metering_model.specs.Holding.{Holding};
    ghost use Rattle.batch_store.specs.Inner.Amenders.{IsIndexOf};

    ghost Value = { Holding };

    ghost view = { λ s. s.shelf };

    ghost invariant = { λ s. IsIndexOf s.shelf s.amenders };
}

impl IndexedShelf {
    /// No batches; nothing is allocated.
    pub(crate) fn new(alloc: Global) -> IndexedShelf
        ensures { result ≡ [] }
    {
        IndexedShelf {
            shelf: Shelf::new(alloc),
            amenders: Amenders::new(alloc),
        }
    }

    /// The batch at a sequence.
    pub(crate) fn get(&self, seq: u32) -> Option<&OwnedBatch>
        ensures { option_map batch_of (option_copied result) ≡ at_seq self.now seq }
    {
        self.shelf.get(seq)
    }

    /// The first batch from a sequence on.
    pub(crate) fn first_from(&self, seq: u32) -> Option<&OwnedBatch>
        ensures { MatchOption result (from_seq seq self.now ≡ [])
            (λ b. from_seq seq self.now
            ≡ batch_of b.now ∷ from_seq ((batch_of b.now).seq + 1) self.now) }
    {
        self.shelf.first_from(seq)
    }

    /// The least sequence without a batch.
    pub(crate) fn first_absent(&self) -> u32
        ensures absent { at_seq self.now result ≡ None }
        ensures below { (seq : ℕ) → 1 ≤ seq → seq < result → is_some (at_seq self.now seq) ≡ true }
        ensures range { (1 ≤ result) × (result ≤ last_sequence + 1) }
    {
        self.shelf.first_absent()
    }

    /// Of the batches after a sequence and up to another, one such that none after it amends the batch at the first;
    /// None where none does. Nothing is allocated.
    pub(crate) fn last_amender(&self, seq: u32, upto: u32) -> Option<u32>
        ensures { MatchOption result (NoneAmends (at_seq self.now) seq seq upto)
            (IsLastAmender (at_seq self.now) seq upto) }
    {
        self.amenders.last(seq, upto)
    }

    /// Adds a batch and returns true; a batch of its sequence stays, and false is returned. After an error all is as it
    /// was: what was listed for a batch that found no room is passed over, and no answer shows it.
    pub(crate) fn put(&mut self, batch: Arc<OwnedBatch>) -> Result<bool, AllocError>
        requires { AreOf (batch_of (arc_value batch)).agent self.old }
        ensures added { IfOk result
            (λ added. IsTrue added ↔ (at_seq self.old (batch_of (arc_value batch)).seq ≡ None)) }
        ensures batches { IfOk result (λ _. self.new ≡ put self.old (batch_of (arc_value batch))) }
        ensures kept { IfErr result (λ _. self.new ≡ self.old) }
    {
        let seq = batch.view().seq();
        if self.shelf.get(seq).is_some() {
            return Ok(false);
        }
        self.amenders.list(seq, batch.amendments())?;
        self.shelf.put(batch)
    }

    /// The batches up to a sequence, shared. The index is shared whole: later batches that it lists are not there.
    pub(crate) fn share(&self, alloc: Global, last: u32) -> Result<IndexedShelf, AllocError>
        ensures { IfOk result (λ part. part ≡ up_to_seq last self.now) }
    {
        let shelf = self.shelf.share(alloc, last)?;
        let amenders = self.amenders.share()?;
        Ok(IndexedShelf { shelf, amenders })
    }
}
