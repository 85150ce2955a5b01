//! What a node's thread does.

use crate::Gate;
use crate::boards::{Note, Taken};
use crate::desks::{Desk, Report};
use node_book::{Done, Event, Log, Receipt, Reply, Worker};
use std::alloc::{AllocError, Global};
use std::sync::Wait;
use std::thread;
use std::thread::Threads;

/// Which node a thread is, how often it asks its gate, and whether its files are made in further threads.
#[derive(Clone, Copy, Drop)]
pub(crate) struct Seat {
    pub node: u8,
    pub turns: u32,
    pub is_split: bool,
}

/// How far a node is: what it has done, how many periods it has learned, and how many of these it has exported.
#[derive(Drop)]
struct Progress {
    done: Vec<Done>,
    learned: u16,
    exported: u16,
    is_stuck: bool,
}

/// What follows for a node from a reply.
#[derive(Clone, Copy, Drop)]
enum Next {
    /// The packet of this number was sent.
    Sent(u32),
    /// The node has learned a period.
    Learned,
    /// Nothing was done.
    Refused,
    /// None of these.
    Nothing,
}

/// What follows from a reply. A step that learns a period sends nothing, so none is passed over.
fn next_of(reply: &Reply) -> Next {
    match reply {
        Reply::Delivered { sent, learned } => match (sent, learned) {
            (Some(packet), _) => Next::Sent(*packet),
            (None, Some(_)) => Next::Learned,
            (None, None) => Next::Nothing,
        },
        Reply::Started { packet, .. } => Next::Sent(*packet),
        Reply::Refused(_) => Next::Refused,
        _ => Next::Nothing,
    }
}

/// Asks the gate until it lets the node pass, at most so many times as its seat has turns.
fn pass<G: Gate>(gate: &G, seat: Seat, period: u16) {
    for _ in 0..seat.turns {
        if gate.ask(seat.node, period) {
            return;
        }
        thread::yield_now();
    }
}

impl Progress {
    /// Keeps a receipt, with its file where it is an export's.
    fn keep<R: Threads + Sync>(
        &mut self,
        rt: &R,
        alloc: Global,
        seat: Seat,
        receipt: Receipt,
    ) -> Result<(), AllocError> {
        let done = if seat.is_split {
            Done::new(rt, alloc, receipt)?
        } else {
            Done::in_one_thread(alloc, receipt)?
        };
        self.done.push(done)?;
        Ok(())
    }

    /// Asks for the file of a period, and tells whether it was answered. The lock is free again before the gate is
    /// asked.
    fn export<R: Threads + Wait + Sync, G: Gate>(
        &mut self,
        rt: &R,
        alloc: Global,
        desk: &Desk,
        gate: &G,
        seat: Seat,
        period: u16,
    ) -> Result<bool, AllocError> {
        let node = seat.node;
        let receipt = desk.act(
            rt,
            alloc,
            Worker::Node(node),
            Event::Export { node, period },
        )?;
        let is_answered = matches!(receipt.reply, Reply::Exported(_));
        if is_answered {
            pass(gate, seat, period);
        }
        self.keep(rt, alloc, seat, receipt)?;
        if is_answered {
            gate.done(node, period);
            self.exported = self.exported.saturating_add(1);
        }
        Ok(is_answered)
    }

    /// Asks for the periods that are learned and not exported yet, until one is refused: what a period lacks, each
    /// later one lacks too.
    fn export_learned<R: Threads + Wait + Sync, G: Gate>(
        &mut self,
        rt: &R,
        alloc: Global,
        desk: &Desk,
        gate: &G,
        seat: Seat,
    ) -> Result<(), AllocError> {
        for period in self.exported..self.learned {
            if !self.export(rt, alloc, desk, gate, seat, period)? {
                break;
            }
        }
        Ok(())
    }

    /// Does an event at the node, and what follows from its reply.
    fn take<R: Threads + Wait + Sync, G: Gate>(
        &mut self,
        rt: &R,
        alloc: Global,
        desk: &Desk,
        gate: &G,
        seat: Seat,
        event: Event,
    ) -> Result<(), AllocError> {
        let receipt = desk.act(rt, alloc, Worker::Node(seat.node), event)?;
        let next = next_of(&receipt.reply);
        self.keep(rt, alloc, seat, receipt)?;
        match next {
            Next::Sent(packet) => {
                desk.board.send(rt, packet);
                Ok(())
            }
            Next::Learned => {
                self.learned = self.learned.saturating_add(1);
                desk.report(rt, Report::Learned);
                self.export_learned(rt, alloc, desk, gate, seat)
            }
            Next::Refused => {
                if !self.is_stuck {
                    self.is_stuck = true;
                    desk.report(rt, Report::Stuck);
                }
                Ok(())
            }
            // It may have been a batch that a learned period lacked.
            Next::Nothing => self.export_learned(rt, alloc, desk, gate, seat),
        }
    }
}

/// Works on notes until it is told to stop.
fn work<R: Threads + Wait + Sync, G: Gate>(
    rt: &R,
    alloc: Global,
    desk: &Desk,
    gate: &G,
    seat: Seat,
) -> Result<Log, AllocError> {
    let node = seat.node;
    let mut taken = Taken::new();
    let mut progress = Progress {
        done: Vec::new(alloc),
        learned: 0,
        exported: 0,
        is_stuck: false,
    };
    for _ in rt.forever() {
        let event = match desk.board.next(rt, &mut taken) {
            Note::Packet(packet) => Event::Deliver { packet, node },
            Note::Period(period) if desk.begins(node, period) => Event::Start { node },
            Note::Period(_) => continue,
            Note::Stop => break,
        };
        progress.take(rt, alloc, desk, gate, seat, event)?;
    }
    Ok(Log {
        who: Worker::Node(node),
        done: progress.done,
    })
}

/// The thread of a node. An allocation failure is reported to the main thread at once.
pub(crate) fn run_node<R: Threads + Wait + Sync, G: Gate>(
    rt: &R,
    alloc: Global,
    desk: &Desk,
    gate: &G,
    seat: Seat,
) -> Result<Log, AllocError> {
    let log = work(rt, alloc, desk, gate, seat);
    if log.is_err() {
        desk.report(rt, Report::NoMemory);
    }
    log
}
