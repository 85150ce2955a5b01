//! A row of batches, most of which others may share.

ghost use Rattle.std.specs.Prelude.{◌≡◌, ◌<◌, ◌≤◌, ◌∷◌, ◌++◌, [], length, take, slice_index_or, IfOk, OnOk, OnErr};
ghost use Rattle.metering_model.specs.Limits.{last_sequence};
ghost use Rattle.batch_store.specs.Inner.Rows.{AreClones, part_at};

use batch_view::OwnedBatch;
use std::alloc::{AllocError, Global};
use std::marker::Model;
use std::sync::Arc;

/// So many batches are shared as one part.
const MANY: usize = 64;

/// Batches in order. Each part of 64 of them is a list that others may share and that stays as it is. So to share many
/// takes a sixty-fourth of the steps, what is shared is just what was asked for, and of 64 batches 63 are added in
/// place.
#[derive(Drop)]
pub(crate) struct Row {
    parts: Vec<Arc<Vec<Arc<OwnedBatch>>>>,
    /// Those after the parts, fewer than 64.
    last: Vec<Arc<OwnedBatch>>,
    /// How many there are in all.
    count: usize,
    alloc: Global,
}

impl Model for Row {
    ghost use Rattle.batch_store.specs.Inner.Shelves.{Shared};
    ghost use Rattle.batch_store.specs.Inner.Rows.{in_parts, IsRow};
    ghost use Rattle.std.specs.Prelude.{List};

    ghost Value = { List Shared };

    ghost view = { λ r. in_parts r.parts.items r.last.items };

    ghost invariant = { λ r. IsRow r.parts.items r.last.items r.count };
}

/// The batches of a part, or those after the parts.
fn part_at<'a>(
    parts: &'a [Arc<Vec<Arc<OwnedBatch>>>],
    last: &'a [Arc<OwnedBatch>],
    part: usize,
) -> &'a [Arc<OwnedBatch>]
    requires { part ≤ length parts.now }
    ensures { result.now ≡ part_at parts.now last.now part }
{
    if part < parts.len() {
        &parts[part]
    } else {
        last
    }
}

/// A part of batches and one after them.
fn part_of(
    alloc: Global,
    batches: &[Arc<OwnedBatch>],
    batch: Arc<OwnedBatch>,
) -> Result<Vec<Arc<OwnedBatch>>, AllocError>
    ensures { IfOk result (λ part. AreClones (batches.now ++ batch ∷ []) part.items) }
{
    let mut part: Vec<Arc<OwnedBatch>> = Vec::with_capacity(alloc, MANY)?;
    part.extend_from_slice(batches)?;
    part.push(batch)?;
    Ok(part)
}

impl Row {
    /// No batch; nothing is allocated.
    pub(crate) fn new(alloc: Global) -> Row
        ensures { result ≡ [] }
    {
        Row {
            parts: Vec::new(alloc),
            last: Vec::new(alloc),
            count: 0,
            alloc,
        }
    }

    /// How many batches there are.
    pub(crate) fn len(&self) -> usize
        ensures { result ≡ length self.now }
    {
        self.count
    }

    /// The batch at a place.
    pub(crate) fn at(&self, place: usize) -> &Arc<OwnedBatch>
        requires { place < length self.now }
        ensures { result.now ≡ slice_index_or self.now place result.now }
    {
        &part_at(&self.parts, &self.last, place / MANY)[place % MANY]
    }

    /// Adds a batch after the others. At an error all is as it was.
    pub(crate) fn push(&mut self, batch: Arc<OwnedBatch>) -> Result<(), AllocError>
        requires { length self.old < last_sequence }
        ensures added { OnOk result (AreClones (self.old ++ batch ∷ []) self.new) }
        ensures kept { OnErr result (self.new ≡ self.old) }
    {
        if self.last.len() + 1 < MANY {
            self.last.push(batch)?;
            self.count += 1;
            return Ok(());
        }
        let part = part_of(self.alloc, &self.last, batch)?;
        self.parts.push(Arc::new(self.alloc, part)?)?;
        self.last.clear();
        self.count += 1;
        Ok(())
    }

    /// The first batches, shared.
    pub(crate) fn share(&self, count: usize) -> Result<Row, AllocError>
        requires { count ≤ length self.now }
        ensures { IfOk result (λ row. AreClones (take count self.now) row) }
    {
        let whole = count / MANY;
        let rest = count % MANY;
        let mut parts: Vec<Arc<Vec<Arc<OwnedBatch>>>> = Vec::with_capacity(self.alloc, whole)?;
        parts.extend_from_slice(&self.parts[..whole])?;
        let mut last: Vec<Arc<OwnedBatch>> = Vec::with_capacity(self.alloc, rest)?;
        last.extend_from_slice(&part_at(&self.parts, &self.last, whole)[..rest])?;
        Ok(Row {
            parts,
            last,
            count,
            alloc: self.alloc,
        })
    }
}
