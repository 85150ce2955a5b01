//! The batches of a store, one after another.

ghost use Rattle.std.specs.Prelude.{◌≡◌, ◌↔◌, IsTrue};
ghost use Rattle.batch_view.specs.Batches.{batch_of};
ghost use Rattle.batch_store.specs.Inner.Shelves.{on_shelves};

use crate::indexed::IndexedShelf;
use batch_view::OwnedBatch;
use std::marker::Model;

/// The batches of a store that are still to come, by agent and then by sequence.
#[derive(Drop)]
pub struct Batches<'a> {
    shelves: &'a [IndexedShelf],
    seq: u32,
}

impl<'a> Model for Batches<'a> {
    ghost use Rattle.metering_model.specs.Holding.{Holding};
    ghost use Rattle.batch_store.specs.Inner.Shelves.{left_from};

    ghost Value = { Holding };

    ghost view = { λ b. left_from b.seq b.shelves.now };
}

impl<'a> Batches<'a> {
    /// All batches on these shelves.
    pub(crate) fn of(shelves: &'a [IndexedShelf]) -> Batches<'a>
        ensures { result ≡ on_shelves shelves.now }
    {
        Batches { shelves, seq: 0 }
    }
}

/// Whether both batches are the same. Their bytes decide, since a batch has one text.
fn is_same(one: &OwnedBatch, two: &OwnedBatch) -> bool
    ensures { IsTrue result ↔ (batch_of one.now ≡ batch_of two.now) }
{
    one.bytes() == two.bytes()
}

/// Whether both walks give the same batches from here on.
pub(crate) fn are_same<'a>(mut one: Batches<'a>, mut two: Batches<'a>) -> bool
    ensures { IsTrue result ↔ (one.entry ≡ two.entry) }
{
    loop {
        match (one.next(), two.next()) {
            (Some(batch), Some(other)) => {
                if !is_same(batch, other) {
                    return false;
                }
            }
            (None, None) => return true,
            _ => return false,
        }
    }
}

impl<'a> Iterator for Batches<'a> {
    ghost use Rattle.std.specs.Iterator.{item_count};
    ghost use Rattle.batch_store.specs.Walks.{GivesBatch, batches_left};

    type Item = &'a OwnedBatch;

    ghost next_gives = { GivesBatch };

    ghost remaining = { item_count batches_left };

    fn next(&mut self) -> Option<&'a OwnedBatch> {
        let shelves = self.shelves;
        let mut from = self.seq;
        for (index, shelf) in shelves.iter().enumerate() {
            match shelf.first_from(from) {
                Some(batch) => {
                    self.shelves = &shelves[index..];
                    self.seq = batch.view().seq() + 1;
                    return Some(batch);
                }
                None => from = 0,
            }
        }
        self.shelves = &shelves[shelves.len()..];
        None
    }
}
