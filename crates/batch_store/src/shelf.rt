//! The batches of one agent.

ghost use Rattle.std.specs.Prelude.{◌+◌, ◌∷◌, MatchOption, ◌≡◌, ℕ, true, ◌≤◌, ◌<◌, ◌↔◌, [], None, IfOk, IfErr, OnOk, OnErr, IsTrue};
ghost use Rattle.std.specs.Option.{option_copied, option_map, is_some};
ghost use Rattle.std.specs.Arc.{arc_value};
ghost use Rattle.metering_model.specs.Holding.{put};
ghost use Rattle.metering_model.specs.Limits.{last_sequence};
ghost use Rattle.batch_view.specs.Batches.{batch_of};
ghost use Rattle.batch_store.specs.Inner.Shelves.{AreFiled, AreOf, Rises, at_seq, from_seq, up_to_seq, contents, filed_up_to};

use crate::row::Row;
use batch_view::OwnedBatch;
use std::alloc::{AllocError, Global};
use std::collections::BTreeMap;
use std::marker::Model;
use std::sync::Arc;

/// An agent has no sequence above this.
const LAST_SEQUENCE: u32 = 1_000_000;

/// The batches of one agent, at most one for each sequence. Those from sequence 1 on without a gap are found by their
/// number, and those ahead of a gap in a map.
#[derive(Drop)]
pub(crate) struct Shelf {
    whole: Row,
    ahead: BTreeMap<u32, Arc<OwnedBatch>>,
}

impl Model for Shelf {
    ghost use Rattle.metering_model.specs.Holding.{Holding};
    ghost use Rattle.batch_store.specs.Inner.Shelves.{on_shelf, IsShelf};

    ghost Value = { Holding };

    ghost view = { λ s. on_shelf s.whole s.ahead.entries };

    ghost invariant = { λ s. IsShelf s.whole s.ahead.entries };
}

/// The batches that are filed up to a sequence, shared.
fn share_filed(
    filed: &BTreeMap<u32, Arc<OwnedBatch>>,
    alloc: Global,
    last: u32,
) -> Result<BTreeMap<u32, Arc<OwnedBatch>>, AllocError>
    requires { AreFiled 1 filed.now.entries }
    ensures { IfOk result (λ part. contents part.entries
        ≡ contents (filed_up_to last filed.now.entries)) }
{
    let mut part = BTreeMap::new(alloc);
    for (seq, batch) in filed.range(..=last) {
        part.insert(*seq, Arc::try_clone(batch)?)?;
    }
    Ok(part)
}

impl Shelf {
    /// A shelf without batches; nothing is allocated.
    pub(crate) fn new(alloc: Global) -> Shelf
        ensures { result ≡ [] }
    {
        Shelf {
            whole: Row::new(alloc),
            ahead: BTreeMap::new(alloc),
        }
    }

    /// The batch at a sequence.
    pub(crate) fn get(&self, seq: u32) -> Option<&OwnedBatch>
        ensures batch { option_map batch_of (option_copied result) ≡ at_seq self.now seq }
        ensures rises { Rises 1 self.now }
    {
        if seq as usize > self.whole.len() {
            return match self.ahead.get(&seq) {
                Some(batch) => Some(batch),
                None => None,
            };
        }
        if seq == 0 {
            return None;
        }
        Some(self.whole.at(seq as usize - 1))
    }

    /// The first batch from a sequence on.
    pub(crate) fn first_from(&self, seq: u32) -> Option<&OwnedBatch>
        ensures { MatchOption result (from_seq seq self.now ≡ [])
            (λ b. from_seq seq self.now
            ≡ batch_of b.now ∷ from_seq ((batch_of b.now).seq + 1) self.now) }
    {
        let first = seq.max(1);
        if first as usize <= self.whole.len() {
            return Some(self.whole.at(first as usize - 1));
        }
        let mut later = self.ahead.range(first..);
        match later.next() {
            Some((_, batch)) => Some(batch),
            None => None,
        }
    }

    /// The least sequence without a batch.
    pub(crate) fn first_absent(&self) -> u32
        ensures absent { at_seq self.now result ≡ None }
        ensures below { (seq : ℕ) → 1 ≤ seq → seq < result → is_some (at_seq self.now seq) ≡ true }
        ensures range { (1 ≤ result) × (result ≤ last_sequence + 1) }
    {
        let next = self.whole.len() as u32 + 1;
        for seq in next..LAST_SEQUENCE + 1 {
            if !self.ahead.contains_key(&seq) {
                return seq;
            }
        }
        LAST_SEQUENCE + 1
    }

    /// Moves the first batch of the map after those without a gap, if it comes next and there is room for it.
    fn move_first(&mut self) -> bool
        ensures { self.new ≡ self.old }
    {
        let next = match self.ahead.first_key_value() {
            Some((seq, batch)) if *seq as usize == self.whole.len() + 1 => Arc::try_clone(batch),
            _ => return false,
        };
        let Ok(batch) = next else {
            return false;
        };
        let Ok(()) = self.whole.push(batch) else {
            return false;
        };
        let Some(_) = self.ahead.pop_first() else {
            return false;
        };
        true
    }

    /// Moves what a filled gap leaves without one. What finds no room stays in the map.
    fn settle(&mut self)
        ensures { self.new ≡ self.old }
    {
        for _ in 0..self.ahead.len() {
            if !self.move_first() {
                return;
            }
        }
    }

    /// Adds a batch whose sequence has none, after those without a gap where it comes next, and else in the map.
    fn add(&mut self, seq: u32, batch: Arc<OwnedBatch>) -> Result<(), AllocError>
        requires seq { seq ≡ (batch_of (arc_value batch)).seq }
        requires range { (1 ≤ seq) × (seq ≤ last_sequence) }
        requires of_agent { AreOf (batch_of (arc_value batch)).agent self.old }
        requires absent { at_seq self.old seq ≡ None }
        ensures ok { OnOk result (self.new ≡ put self.old (batch_of (arc_value batch))) }
        ensures kept { OnErr result (self.new ≡ self.old) }
    {
        if seq as usize == self.whole.len() + 1 {
            self.whole.push(batch)?;
            return Ok(());
        }
        self.ahead.insert(seq, batch)?;
        Ok(())
    }

    /// Adds a batch and returns true; a batch of its sequence stays, and false is returned. After an error all is as it
    /// was.
    pub(crate) fn put(&mut self, batch: Arc<OwnedBatch>) -> Result<bool, AllocError>
        requires { AreOf (batch_of (arc_value batch)).agent self.old }
        ensures added { IfOk result
            (λ added. IsTrue added ↔ (at_seq self.old (batch_of (arc_value batch)).seq ≡ None)) }
        ensures batches { IfOk result (λ _. self.new ≡ put self.old (batch_of (arc_value batch))) }
        ensures kept { IfErr result (λ _. self.new ≡ self.old) }
    {
        let seq = batch.view().seq();
        if self.get(seq).is_some() {
            return Ok(false);
        }
        self.add(seq, batch)?;
        self.settle();
        Ok(true)
    }

    /// The batches up to a sequence, shared.
    pub(crate) fn share(&self, alloc: Global, last: u32) -> Result<Shelf, AllocError>
        ensures { IfOk result (λ part. part ≡ up_to_seq last self.now) }
    {
        let count = self.whole.len().min(last as usize);
        let whole = self.whole.share(count)?;
        let ahead = share_filed(&self.ahead, alloc, last)?;
        Ok(Shelf { whole, ahead })
    }
}
