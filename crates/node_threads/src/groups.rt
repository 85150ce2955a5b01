//! A run from its plan to its logs.

ghost use Rattle.std.specs.Prelude.{◌≡◌, ◌+◌, ◌-◌, ◌≤◌, map, vec_len, IfOk};
ghost use Rattle.metering_model.specs.Limits.{most_agents, most_periods, most_nodes};
ghost use Rattle.metering_model.specs.History.{IsLegal};
ghost use Rattle.group_laws.specs.Headline.{HoldsAfter};
ghost use Rattle.node_book.specs.Books.{opened};
ghost use Rattle.node_book.specs.Logs.{log_of, plan_of};
ghost use Rattle.node_book.specs.Agreement.{Agree, FilesAgree};
ghost use Rattle.node_book.specs.Whole.{LeavesNothingOut};

use crate::desks::open;
use crate::threads::{Work, run_threads};
use crate::{Gate, Run, RunFault};
use node_book::{Book, Log, Plan};
use std::alloc::{AllocError, Global};
use std::sync::Wait;
use std::thread::Threads;

/// What the threads brought back, where it agrees with the book and the plan, and the last period leaves nothing out.
fn right_logs(
    alloc: Global,
    book: &Book,
    plan: &Plan,
    brought: Result<Vec<Log>, AllocError>,
) -> Result<Vec<Log>, RunFault>
    requires periods { 1 ≤ plan.now.periods }
    ensures agree { IfOk result
        (λ logs. Agree book.now (plan_of plan.now) (map log_of logs.items)) }
    ensures files { IfOk result (λ logs. FilesAgree (map log_of logs.items)) }
    ensures whole { IfOk result (λ _. LeavesNothingOut book.now (plan.now.periods - 1)) }
{
    let Ok(logs) = brought else {
        return Err(RunFault::OutOfMemory);
    };
    if !book.agrees(plan, logs.as_slice()) {
        return Err(RunFault::Mismatch);
    }
    match book.leaves_nothing_out(alloc, plan.periods - 1) {
        Ok(true) => Ok(logs),
        Ok(false) => Err(RunFault::Mismatch),
        Err(_) => Err(RunFault::OutOfMemory),
    }
}

/// Runs a group of 1 or more voters, at most 99 nodes, 1 to 64 agents and 1 to 1,200 periods: a thread for each node
/// and each agent, around one book. With Ok all logs agree with the book's history: each agent offered its texts to the
/// journals, none of which was refused for a full world, and each node exported each period once; the file of the last one
/// has, from the cut before, all that was journaled, of each agent up to its first batch that is not due. An error stands for
/// a failed allocation, a thread that could not be started, or a run that is not so; no clause says when it comes.
pub fn run_group<R: Threads + Wait + Sync, G: Gate + Sync>(
    rt: &R,
    alloc: Global,
    plan: Plan,
    gate: &G,
) -> Result<Run, RunFault>
    requires voters_from { 1 ≤ plan.voters }
    requires nodes_to { plan.voters + plan.observers ≤ most_nodes }
    requires agents_from { 1 ≤ vec_len plan.journals }
    requires agents_to { vec_len plan.journals ≤ most_agents }
    requires periods_from { 1 ≤ plan.periods }
    requires periods_to { plan.periods ≤ most_periods }
    ensures plan { IfOk result (λ run. run.plan ≡ plan_of plan) }
    ensures agree { IfOk result (λ run. Agree run.book (plan_of plan) run.logs) }
    ensures files { IfOk result (λ run. FilesAgree run.logs) }
    ensures whole { IfOk result (λ run. LeavesNothingOut run.book (run.plan.periods - 1)) }
    ensures history { IfOk result
        (λ run. IsLegal (opened run.book) run.book.history run.book.world) }
    ensures headline { IfOk result
        (λ run. HoldsAfter run.book.voters run.book.observers run.book.agents run.book.sheet
        run.book.issuer
        (map (λ e. e.event) run.book.history)
        (map (λ e. e.reply) run.book.history) run.book.world) }
{
    let Ok((desk, reports)) = open(alloc, &plan) else {
        return Err(RunFault::OutOfMemory);
    };
    let work = Work {
        nodes: plan.voters + plan.observers,
        journals: &plan.journals,
        periods: plan.periods,
        turns: plan.turns,
    };
    let brought = run_threads(rt, alloc, work, gate, &desk, &reports);
    let book = desk.into_book();
    book.legal();
    let logs = right_logs(alloc, &book, &plan, brought)?;
    Ok(Run { plan, book, logs })
}
