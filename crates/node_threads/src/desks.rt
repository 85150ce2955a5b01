//! What the threads of a run share, and what they tell each other.

ghost use Rattle.std.specs.Prelude.{◌+◌, ◌≤◌, vec_len};
ghost use Rattle.metering_model.specs.Limits.{most_agents, most_nodes};

use crate::boards::Board;
use crossbeam_channel::{Receiver, Sender, bounded};
use node_book::{Book, Event, Plan, Receipt, Worker};
use std::alloc::{AllocError, Global};
use std::sync::{Arc, Mutex, Wait};

/// What the main thread is told.
#[derive(Clone, Copy, Drop)]
pub(crate) enum Report {
    /// A node has learned a period.
    Learned,
    /// A node was refused a ballot or a packet, as a full world does: it may wait for ever.
    Stuck,
    /// There was no memory for a thread.
    NoMemory,
}

/// The book under its lock, what node threads are told, and the way to the main thread.
#[derive(Drop)]
pub(crate) struct Desk {
    book: Mutex<Book>,
    voters: u8,
    pub board: Board,
    main: Sender<Report>,
}

/// The most reports that can wait: of each node a period that nobody waits for any more, that it is stuck, and that it
/// has no memory; of each agent the last of these.
fn most_reports(nodes: usize, agents: usize) -> usize {
    nodes.saturating_mul(3).saturating_add(agents)
}

/// A book for the plan's group.
fn open_book(alloc: Global, plan: &Plan) -> Result<Book, AllocError>
    requires voters_from { 1 ≤ plan.now.voters }
    requires nodes_to { plan.now.voters + plan.now.observers ≤ most_nodes }
    requires agents_from { 1 ≤ vec_len plan.now.journals }
    requires agents_to { vec_len plan.now.journals ≤ most_agents }
{
    let sheet = Arc::try_clone(&plan.sheet)?;
    let issuer = Arc::try_clone(&plan.issuer)?;
    let agents = plan.journals.len() as u8;
    Book::new(alloc, plan.voters, plan.observers, agents, sheet, issuer)
}

/// A desk with a book, and where the main thread takes reports.
pub(crate) fn open(alloc: Global, plan: &Plan) -> Result<(Desk, Receiver<Report>), AllocError>
    requires voters_from { 1 ≤ plan.now.voters }
    requires nodes_to { plan.now.voters + plan.now.observers ≤ most_nodes }
    requires agents_from { 1 ≤ vec_len plan.now.journals }
    requires agents_to { vec_len plan.now.journals ≤ most_agents }
{
    let book = open_book(alloc, plan)?;
    // All reports have room from the start, so that a report of want of memory wants none.
    let (main, reports) = bounded(alloc, most_reports(plan.nodes(), plan.journals.len()))?;
    let desk = Desk {
        book: Mutex::new(book),
        voters: plan.voters,
        board: Board::new(),
        main,
    };
    Ok((desk, reports))
}

impl Desk {
    /// One event, in one hold of the lock.
    pub(crate) fn act<R: Wait>(
        &self,
        rt: &R,
        alloc: Global,
        who: Worker,
        event: Event,
    ) -> Result<Receipt, AllocError> {
        self.book.lock(rt).act(alloc, who, event)
    }

    /// Whether a node is to begin the ballot of a period: the voters take turns.
    pub(crate) fn begins(&self, node: u8, period: u16) -> bool {
        period.checked_rem(u16::from(self.voters)) == Some(u16::from(node))
    }

    /// Tells the main thread, which has room for each report.
    pub(crate) fn report<R: Wait>(&self, rt: &R, report: Report) {
        let _ = self.main.send(rt, report);
    }

    /// The book, once all threads have ended.
    pub(crate) fn into_book(self) -> Book {
        self.book.into_inner()
    }
}
