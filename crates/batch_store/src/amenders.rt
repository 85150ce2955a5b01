//! Which later batches of one agent amend a batch.

ghost use Rattle.std.specs.Prelude.{◌≡◌, ◌<◌, MatchOption, IfOk, OnOk, []};
ghost use Rattle.batch_store.specs.Inner.Amenders.{pair_of, IsListed, AreListed, KeepsListed, NoneListed, IsLastListed};

use batch_view::Amendment;
use std::alloc::{AllocError, Global};
use std::collections::BTreeSet;
use std::marker::Model;
use std::sync::Arc;

/// A number that rises with the sequence of a batch, and then with that of a batch that amends it.
fn pair_of(seq: u32, by: u32) -> u64
    ensures { result ≡ pair_of seq by }
{
    u64::from(seq) * 4_294_967_296 + u64::from(by)
}

/// Lists the batch `by` at the sequence that it amends, where that one is earlier.
fn list_one(pairs: &mut BTreeSet<u64>, by: u32, seq: u32) -> Result<(), AllocError>
    ensures kept { KeepsListed pairs.old.keys pairs.new.keys }
    ensures listed { OnOk result (seq < by → IsListed seq by pairs.new.keys) }
{
    if seq < by {
        pairs.insert(pair_of(seq, by))?;
    }
    Ok(())
}

/// Lists the batch `by` at each earlier sequence that these amendments name. Neighbours that name one sequence are
/// listed once.
fn list_each(pairs: &mut BTreeSet<u64>, by: u32, amendments: &[Amendment]) -> Result<(), AllocError>
    ensures kept { KeepsListed pairs.old.keys pairs.new.keys }
    ensures listed { OnOk result (AreListed by amendments.now pairs.new.keys) }
{
    let mut last = by;
    for amendment in amendments {
        if amendment.seq != last {
            list_one(pairs, by, amendment.seq)?;
            last = amendment.seq;
        }
    }
    Ok(())
}

/// Of the batches after a sequence and up to another that are listed as amending the first, the last.
fn last_listed(pairs: &BTreeSet<u64>, seq: u32, upto: u32) -> Option<u32>
    ensures { MatchOption result (NoneListed seq seq upto pairs.now.keys)
        (IsLastListed seq upto pairs.now.keys) }
{
    if upto <= seq {
        return None;
    }
    let mut between = pairs.range(pair_of(seq, seq + 1)..=pair_of(seq, upto));
    match between.next_back() {
        Some(pair) => Some((*pair - pair_of(seq, 0)) as u32),
        None => None,
    }
}

/// For the batches of an agent, by sequence, the later batches that amend them; nothing for a batch that none amends.
/// An amended batch need not be there, and one that is listed need not either. So an index of more batches serves for
/// fewer, and is shared whole: whoever lists more while it is shared does so on a copy.
#[derive(Drop)]
pub(crate) struct Amenders {
    pairs: Option<Arc<BTreeSet<u64>>>,
    alloc: Global,
}

impl Model for Amenders {
    ghost use Rattle.std.specs.Prelude.{ℕ, List};
    ghost use Rattle.batch_store.specs.Inner.Amenders.{pairs_in};

    ghost Value = { List ℕ };

    ghost view = { λ a. pairs_in a.pairs };
}

impl Amenders {
    /// Nothing is listed, and nothing is allocated.
    pub(crate) fn new(alloc: Global) -> Amenders
        ensures { result ≡ [] }
    {
        Amenders { pairs: None, alloc }
    }

    /// Lists a batch at each earlier sequence that its amendments name. What was listed stays so, after an error too.
    pub(crate) fn list(&mut self, by: u32, amendments: &[Amendment]) -> Result<(), AllocError>
        ensures kept { KeepsListed self.old self.new }
        ensures listed { OnOk result (AreListed by amendments.now self.new) }
    {
        if amendments.is_empty() {
            return Ok(());
        }
        match &mut self.pairs {
            Some(pairs) => list_each(Arc::make_mut(pairs)?, by, amendments),
            None => {
                let mut pairs = BTreeSet::new(self.alloc);
                list_each(&mut pairs, by, amendments)?;
                self.pairs = Some(Arc::new(self.alloc, pairs)?);
                Ok(())
            }
        }
    }

    /// Of the batches after a sequence and up to another that are listed as amending the first, the last. Nothing is
    /// allocated.
    pub(crate) fn last(&self, seq: u32, upto: u32) -> Option<u32>
        ensures { MatchOption result (NoneListed seq seq upto self.now)
            (IsLastListed seq upto self.now) }
    {
        match &self.pairs {
            Some(pairs) => last_listed(pairs, seq, upto),
            None => None,
        }
    }

    /// The same, shared.
    pub(crate) fn share(&self) -> Result<Amenders, AllocError>
        ensures { IfOk result (λ part. part ≡ self.now) }
    {
        let pairs = match &self.pairs {
            Some(pairs) => Some(Arc::try_clone(pairs)?),
            None => None,
        };
        Ok(Amenders {
            pairs,
            alloc: self.alloc,
        })
    }
}
