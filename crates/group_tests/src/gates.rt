//! Runs in threads, with a gate that shows whether nodes overlap.

use crate::samples::plan_of;
use node_threads::{Gate, Log, Plan, Run, RunFault, run_group};
use std::alloc::Global;
use std::sync::Wait;
use std::sync::atomic::{AtomicBool, AtomicU64, Ordering};
use std::test::Fail;
use std::thread::Threads;

/// No export was asked about yet.
const NONE: u64 = u64::MAX;

/// Holds the first export that is asked about until another node is done with one.
#[derive(Drop)]
struct Held {
    first: AtomicU64,
    is_other_done: AtomicBool,
    was_passed: AtomicBool,
}

/// The number of an export.
fn key(node: u8, period: u16) -> u64 {
    u64::from(node)
        .saturating_mul(65_536)
        .saturating_add(u64::from(period))
}

impl Held {
    /// A gate that takes the export of this number for the first.
    fn of(first: u64) -> Held {
        Held {
            first: AtomicU64::new(first),
            is_other_done: AtomicBool::new(false),
            was_passed: AtomicBool::new(false),
        }
    }

    /// Whether this export is the first that was asked about.
    fn is_first(&self, node: u8, period: u16) -> bool {
        let mine = key(node, period);
        match self
            .first
            .compare_exchange(NONE, mine, Ordering::SeqCst, Ordering::SeqCst)
        {
            Ok(_) => true,
            Err(first) => first == mine,
        }
    }
}

impl Gate for Held {
    fn ask(&self, node: u8, period: u16) -> bool {
        if !self.is_first(node, period) {
            return true;
        }
        let passes = self.is_other_done.load(Ordering::SeqCst);
        if passes {
            self.was_passed.store(true, Ordering::SeqCst);
        }
        passes
    }

    fn done(&self, node: u8, _period: u16) {
        let first = self.first.load(Ordering::SeqCst);
        if first / 65_536 != u64::from(node) {
            self.is_other_done.store(true, Ordering::SeqCst);
        }
    }
}

/// A run of the plan. A plan of no group is a mismatch too.
fn run_of<R: Threads + Wait + Sync>(
    rt: &R,
    alloc: Global,
    plan: Plan,
    gate: &Held,
) -> Result<Run, RunFault> {
    if plan.voters < 1 || 99 < plan.nodes() || plan.journals.len() != 1 {
        return Err(RunFault::Mismatch);
    }
    if plan.periods < 1 || 1_200 < plan.periods {
        return Err(RunFault::Mismatch);
    }
    run_group(rt, alloc, plan, gate)
}

/// Whether the book agrees with the logs of all workers and the run's own plan, and not without the last log, nor with
/// the other plan.
fn agrees_with_its_own(run: &Run, other: &Plan) -> bool {
    let logs = run.logs();
    let Some((_, others)) = logs.split_last() else {
        return false;
    };
    run.book().agrees(run.plan(), logs)
        && !run.book().agrees(run.plan(), others)
        && !run.book().agrees(other, logs)
}

/// Whether a run comes to its end whose first export is held until another node is done with one, and agrees with its
/// own plan.
fn is_let_pass<R: Threads + Wait + Sync>(rt: &R, alloc: Global, plan: Plan, more: &Plan) -> bool {
    let gate = Held::of(NONE);
    match run_of(rt, alloc, plan, &gate) {
        Ok(run) => gate.was_passed.load(Ordering::SeqCst) && agrees_with_its_own(&run, more),
        Err(_) => false,
    }
}

/// Of three nodes one is held at its gate until another is done with its export, and is let pass then. The other plan
/// has a period more.
#[test]
fn a_node_exports_while_another_is_held(rt: HostRuntime) {
    let is_so = match (plan_of(rt.alloc(), 3, 0, 1), plan_of(rt.alloc(), 3, 0, 2)) {
        (Ok(plan), Ok(more)) => is_let_pass(&rt, rt.alloc(), plan, &more),
        _ => false,
    };
    assert!(rt; is_so);
}

/// The file of a period that a worker has, if it has one.
fn file_in(log: &Log, period: u16) -> Option<&[u8]> {
    for one in &log.done {
        if one.is_export_of(period) {
            return one.file();
        }
    }
    None
}

/// Whether so many nodes have the file of a period, and the same one.
fn is_exported_alike(logs: &[Log], nodes: usize, period: u16) -> bool {
    let mut first = None;
    let mut count = 0usize;
    for log in logs {
        let Some(file) = file_in(log, period) else {
            continue;
        };
        count = count.saturating_add(1);
        match first {
            Some(wanted) if wanted != file => return false,
            _ => first = Some(file),
        }
    }
    count == nodes
}

/// Whether all three nodes of the plan have the same two files, and the run agrees with its own plan. No export has the
/// number that the gate goes by, so none is held.
fn are_alike<R: Threads + Wait + Sync>(rt: &R, alloc: Global, plan: Plan, other: &Plan) -> bool {
    match run_of(rt, alloc, plan, &Held::of(NONE - 1)) {
        Ok(run) => {
            is_exported_alike(run.logs(), 3, 0)
                && is_exported_alike(run.logs(), 3, 1)
                && agrees_with_its_own(&run, other)
        }
        Err(_) => false,
    }
}

/// Whether that is so each of 200 times.
fn are_always_alike<R: Threads + Wait + Sync>(rt: &R, alloc: Global, other: &Plan) -> bool {
    for _ in 0..200 {
        let is_so = match plan_of(alloc, 2, 1, 2) {
            Ok(plan) => are_alike(rt, alloc, plan, other),
            Err(_) => false,
        };
        if !is_so {
            return false;
        }
    }
    true
}

/// Two voters and an observer have the same files, however their threads take turns. The last log is the observer's,
/// and the other plan has none.
#[test]
fn an_observer_has_the_files_of_the_voters_200_times(rt: HostRuntime) {
    let is_so = match plan_of(rt.alloc(), 2, 0, 2) {
        Ok(other) => are_always_alike(&rt, rt.alloc(), &other),
        Err(_) => false,
    };
    assert!(rt; is_so);
}

/// Whether a run is Ok, with a log of each worker, or reports an allocation failure.
fn is_ended(run: Result<Run, RunFault>) -> bool {
    match run {
        Ok(run) => run.logs().len() == 3,
        Err(fault) => matches!(fault, RunFault::OutOfMemory),
    }
}

/// A run of threads comes to its end, and is Ok or reports an allocation failure. No export has the number that the
/// gate goes by, so none is held.
#[test]
fn a_refused_growth_ends_a_run(rt: HostRuntime) {
    if let Ok(plan) = plan_of(rt.alloc(), 2, 0, 2) {
        assert!(rt; is_ended(run_of(&rt, rt.alloc(), plan, &Held::of(NONE - 1))));
    }
}

/// The words of a run that hands nothing back.
#[test]
fn a_run_says_why_it_ends(rt: HostRuntime) -> Result<(), Fail> {
    let text = format!(in rt.alloc(); "{}.{}", RunFault::OutOfMemory, RunFault::Mismatch)?;
    assert_eq!(rt; text.as_str(), "out of memory.mismatch");
    Ok(())
}
