//! What a run of a group's threads returns.

ghost use Rattle.std.specs.Prelude.{◌≡◌, map};
ghost use Rattle.node_book.specs.Logs.{log_of, plan_of};

use node_book::{Book, Log, Plan};
use std::marker::Model;
use thiserror::Error;

/// A run in which each worker did what the plan asks: the plan, the book that the workers acted on, and the log that
/// each of them brought back, the agents' first.
#[derive(Drop)]
pub struct Run {
    pub(crate) plan: Plan,
    pub(crate) book: Book,
    pub(crate) logs: Vec<Log>,
}

impl Model for Run {
    ghost use Rattle.std.specs.Prelude.{map};
    ghost use Rattle.node_book.specs.Logs.{log_of, plan_of};
    ghost use Rattle.node_threads.specs.Runs as model;

    ghost Value = { model.Run };

    ghost view = { λ r. record {
      plan = plan_of r.plan;
      book = r.book;
      logs = map log_of r.logs.items;
    } };
}

impl Run {
    /// What the group was to do.
    pub fn plan(&self) -> &Plan
        ensures { plan_of result.now ≡ self.now.plan }
    {
        &self.plan
    }

    /// The book that the workers acted on.
    pub fn book(&self) -> &Book
        ensures { result.now ≡ self.now.book }
    {
        &self.book
    }

    /// The logs, which agree with the book's history: first the agents', numbered from 1, then the nodes', numbered
    /// from 0, the voters first.
    pub fn logs(&self) -> &[Log]
        ensures { map log_of result.now ≡ self.now.logs }
    {
        &self.logs
    }
}

/// Why a run returns nothing.
#[derive(Clone, Copy, Debug, Drop, Error)]
pub enum RunFault {
    /// N1: out of memory, or a thread could not be started.
    #[error("out of memory")]
    OutOfMemory,
    /// N2: what the workers brought back is not what stands in the book or what the plan asks, a full world refused something, or the last file lacks batches.
    #[error("mismatch")]
    Mismatch,
}
