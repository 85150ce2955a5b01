//! The rows of one batch, some at a time.

ghost use Rattle.std.specs.Prelude.{◌≡◌, ◌==◌, ◌<◌, ◌≤◌, ◌⊎◌, [], ◌++◌, length, map, OnErr, OnOk, IsTrue};
ghost use Rattle.charge_row.specs.FocusRows.{model_row};
ghost use Rattle.focus_row.specs.Inner.Left.{IsWithin, rows_of_batch};

use crate::between::BetweenCuts;
use batch_view::BatchView;
use charge_row::FocusRow;
use fx_money::Value;
use std::alloc::AllocError;
use std::marker::Model;

/// So many rows are made at a time.
const MOST: usize = 64;

/// The rows of a batch that are still to come, made some at a time.
#[derive(Drop)]
pub struct BatchRows<'b, 'a> {
    cuts: &'b BetweenCuts<'a>,
    batch: BatchView<'a>,
    agent: u8,
    seq: u32,
    /// What amendments give the batch's readings, once it was asked for.
    values: Option<Vec<Option<Value>>>,
    /// The first record whose row was not made.
    index: u16,
}

impl<'b, 'a> Model for BatchRows<'b, 'a> {
    ghost use Rattle.std.specs.Prelude.{◌-◌, IfSome, length};
    ghost use Rattle.batch_view.specs.Batches.{batch_of};
    ghost use Rattle.focus_row.specs.Rows.{RowsLeft};
    ghost use Rattle.focus_row.specs.Inner.Left.{IsWalk, rows_behind};
    ghost use Rattle.focus_row.specs.Inner.NewValues.{AreNewValues};

    ghost Value = { RowsLeft };

    ghost view = { λ w. record {
      rows = rows_behind w.cuts.now w.agent w.seq w.index (batch_of w.batch);
      records = length (batch_of w.batch).records - w.index;
    } };

    ghost invariant = { λ w. IsWalk w.cuts.now w.agent w.seq w.index (batch_of w.batch)
        × IfSome w.values (λ values. AreNewValues w.cuts.now w.agent w.seq values.items) };
}

impl<'b, 'a> BatchRows<'b, 'a> {
    /// The walk over the rows of the batch of an agent at a sequence, all of which are to come.
    pub(crate) fn of(cuts: &'b BetweenCuts<'a>, agent: u8, seq: u32) -> BatchRows<'b, 'a>
        requires within { IsWithin cuts.now (record { agent = agent; seq = seq }) }
        ensures { result.rows ≡ rows_of_batch cuts.now agent seq }
    {
        BatchRows {
            cuts,
            batch: cuts.store.batch_at(agent, seq),
            agent,
            seq,
            values: None,
            index: 0,
        }
    }

    /// Whether no record is left.
    pub fn is_done(&self) -> bool
        ensures records { result ≡ (self.now.records == 0) }
        ensures rows { IsTrue result → self.now.rows ≡ [] }
    {
        self.index == self.batch.count()
    }

    /// Replaces the rows in the list by the next ones: at most 64, and fewer only where no record is left.
    ///
    /// An error is an allocation failure: the walk stands where it stood, and the list is empty.
    pub fn next_rows(&mut self, rows: &mut Vec<FocusRow<'a>>) -> Result<(), AllocError>
        ensures rows { OnOk result (map model_row rows.new.items ++ self.new.rows ≡ self.old.rows) }
        ensures many { OnOk result ((self.new.records ≡ 0) ⊎ (64 ≤ length rows.new.items)) }
        ensures most { OnOk result (length rows.new.items ≤ 64) }
        ensures fewer { OnOk result (0 < self.old.records → self.new.records < self.old.records) }
        ensures kept { OnErr result (self.new ≡ self.old) }
        ensures empty { OnErr result (rows.new.items ≡ []) }
    {
        rows.clear();
        let left = usize::from(self.batch.count() - self.index);
        rows.reserve_exact(left.min(MOST))?;
        let values = match self.values.take() {
            Some(values) => values,
            None => self.cuts.new_values(self.agent, self.seq)?,
        };
        let made = self.cuts.put_rows(
            rows,
            &self.batch,
            &values,
            self.agent,
            self.seq,
            self.index,
            MOST,
        );
        self.values = Some(values);
        let Ok(to) = made else {
            rows.clear();
            return Err(AllocError);
        };
        self.index = to;
        Ok(())
    }
}
