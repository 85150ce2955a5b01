//! The threads of a run, and the main thread's part in it.

use crate::Gate;
use crate::agents::run_agent;
use crate::boards::Board;
use crate::desks::{Desk, Report};
use crate::nodes::{Seat, run_node};
use crossbeam_channel::Receiver;
use node_book::Log;
use std::alloc::{AllocError, Global};
use std::ops::Range;
use std::sync::Wait;
use std::thread;
use std::thread::{JoinHandle, Scope, Threads};

/// What the threads of a run are to do: how many nodes there are, the texts of each agent, how many periods the nodes
/// are to export, and how often each asks its gate.
#[derive(Clone, Copy, Drop)]
pub(crate) struct Work<'a> {
    pub nodes: u8,
    pub journals: &'a [Vec<Vec<u8>>],
    pub periods: u16,
    pub turns: u32,
}

/// What a thread brings back.
type Brought = Result<Log, AllocError>;

/// Has so many nodes learn a period, and tells whether each did.
fn lead_period<R: Wait>(
    rt: &R,
    board: &Board,
    reports: &Receiver<Report>,
    nodes: usize,
    period: u16,
) -> Result<bool, AllocError> {
    board.begin(rt, period);
    for _ in 0..nodes {
        match reports.recv(rt) {
            Ok(Report::Learned) => {}
            Ok(Report::NoMemory) => return Err(AllocError),
            _ => return Ok(false),
        }
    }
    Ok(true)
}

/// Has so many nodes learn these periods in turn, until one is not learned by all.
fn lead<R: Wait>(
    rt: &R,
    board: &Board,
    reports: &Receiver<Report>,
    nodes: usize,
    periods: Range<u16>,
) -> Result<bool, AllocError> {
    for period in periods {
        if !lead_period(rt, board, reports, nodes, period)? {
            return Ok(false);
        }
    }
    Ok(true)
}

/// Joins each of these threads, and adds what they brought back. An error says that one of them, or this call, had no
/// memory.
fn join_all<R: Threads>(
    rt: &R,
    handles: Vec<JoinHandle<Brought>>,
    logs: &mut Vec<Log>,
) -> Result<(), AllocError> {
    let mut joined = Ok(());
    for handle in handles {
        match handle.join(rt) {
            Ok(log) => {
                if logs.push(log).is_err() {
                    joined = Err(AllocError);
                }
            }
            Err(_) => joined = Err(AllocError),
        }
    }
    joined
}

/// The threads of a run that were started, whether all were, and what those that are joined brought back.
#[derive(Drop)]
struct Started {
    nodes: Vec<JoinHandle<Brought>>,
    agents: Vec<JoinHandle<Brought>>,
    logs: Vec<Log>,
    are_all: bool,
}

/// No thread yet, with room for so many and for what they bring back.
fn none_started(
    alloc: Global,
    node_count: usize,
    agent_count: usize,
) -> Result<Started, AllocError> {
    let nodes = Vec::with_capacity(alloc, node_count)?;
    let agents = Vec::with_capacity(alloc, agent_count)?;
    let logs = Vec::with_capacity(alloc, node_count.saturating_add(agent_count))?;
    Ok(Started {
        nodes,
        agents,
        logs,
        are_all: false,
    })
}

/// Leads the nodes through the periods, and joins all threads, the agents' first. They are joined before the last period,
/// so that it has all that they journaled. A thread that was not started counts as one that had no memory.
fn lead_and_join<R: Threads + Wait>(
    rt: &R,
    board: &Board,
    reports: &Receiver<Report>,
    periods: u16,
    started: Started,
) -> Result<Vec<Log>, AllocError> {
    let Started {
        nodes,
        agents,
        mut logs,
        are_all,
    } = started;
    let count = nodes.len();
    let last = periods.saturating_sub(1);
    let mut led = Err(AllocError);
    if are_all {
        led = lead(rt, board, reports, count, 0..last);
    }
    let goes_on = matches!(led, Ok(true));
    if !goes_on {
        board.stop(rt);
    }
    let journaled = join_all(rt, agents, &mut logs);
    if goes_on {
        if journaled.is_ok() {
            led = lead(rt, board, reports, count, last..periods);
        }
        board.stop(rt);
    }
    let exported = join_all(rt, nodes, &mut logs);
    if led.is_err() || journaled.is_err() || exported.is_err() {
        return Err(AllocError);
    }
    Ok(logs)
}

/// Whether files are made in further threads: where there are two processors at least for each node. Nodes export at
/// about the same time, and with fewer they would only slow each other. Each then counts all processors as its own.
fn is_split(rt: &impl Threads, nodes: usize) -> bool {
    match thread::available_parallelism(rt) {
        Ok(processors) => nodes <= processors.get() / 2,
        Err(_) => false,
    }
}

/// Starts a thread for each node, until one can not be started, and tells whether all were.
fn start_nodes<'s, E, R: Threads + Wait + Sync, G: Gate + Sync>(
    scope: &Scope<'s, E>,
    rt: &'s R,
    alloc: Global,
    work: Work<'_>,
    gate: &'s G,
    desk: &'s Desk,
    handles: &mut Vec<JoinHandle<Brought>>,
) -> bool {
    let turns = work.turns;
    let is_split = is_split(rt, usize::from(work.nodes));
    for node in 0..work.nodes {
        let seat = Seat {
            node,
            turns,
            is_split,
        };
        match scope.spawn(move || run_node(rt, alloc, desk, gate, seat)) {
            Ok(handle) => {
                if handles.push(handle).is_err() {
                    return false;
                }
            }
            Err(_) => return false,
        }
    }
    true
}

/// Starts a thread for each agent, until one can not be started, and tells whether all were.
fn start_agents<'s, E, R: Wait + Sync>(
    scope: &Scope<'s, E>,
    rt: &'s R,
    alloc: Global,
    journals: &'s [Vec<Vec<u8>>],
    desk: &'s Desk,
    handles: &mut Vec<JoinHandle<Brought>>,
) -> bool {
    let mut agent = 0u8;
    for texts in journals {
        agent = agent.saturating_add(1);
        let texts = texts.as_slice();
        match scope.spawn(move || run_agent(rt, alloc, desk, agent, texts)) {
            Ok(handle) => {
                if handles.push(handle).is_err() {
                    return false;
                }
            }
            Err(_) => return false,
        }
    }
    true
}

/// Starts a thread for each node and each agent, leads the nodes through the periods, and gives what all threads bring
/// back.
fn run_in_scope<'s, E, R: Threads + Wait + Sync, G: Gate + Sync>(
    scope: &Scope<'s, E>,
    rt: &'s R,
    alloc: Global,
    work: Work<'s>,
    gate: &'s G,
    desk: &'s Desk,
    reports: &Receiver<Report>,
) -> Result<Vec<Log>, AllocError> {
    let mut started = none_started(alloc, usize::from(work.nodes), work.journals.len())?;
    started.are_all = start_nodes(scope, rt, alloc, work, gate, desk, &mut started.nodes)
        && start_agents(scope, rt, alloc, work.journals, desk, &mut started.agents);
    lead_and_join(rt, &desk.board, reports, work.periods, started)
}

/// Runs a thread for each node and each agent, and gives what all threads bring back: first the agents' logs, then the
/// nodes'. The scope's closure does no more than one call, for the prover's time alone (docs/DECISIONS.md).
pub(crate) fn run_threads<R: Threads + Wait + Sync, G: Gate + Sync>(
    rt: &R,
    alloc: Global,
    work: Work<'_>,
    gate: &G,
    desk: &Desk,
    reports: &Receiver<Report>,
) -> Result<Vec<Log>, AllocError> {
    thread::scope(thread::scope_env(), rt, move |scope| {
        run_in_scope(scope, rt, alloc, work, gate, desk, reports)
    })
}
