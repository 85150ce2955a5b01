//! What an agent's thread does.

use crate::desks::{Desk, Report};
use node_book::{Done, Event, Log, Offer, Reply, Worker};
use std::alloc::{AllocError, Global};
use std::sync::Wait;

/// Reads a text and journals it, and tells the nodes of its packet.
fn journal<R: Wait>(
    rt: &R,
    alloc: Global,
    desk: &Desk,
    agent: u8,
    text: &[u8],
) -> Result<Done, AllocError> {
    let offer = Offer::read(alloc, text.to_vec(alloc)?)?;
    let receipt = desk.act(rt, alloc, Worker::Agent(agent), Event::Journal(offer))?;
    if let Reply::Journaled { packet } = &receipt.reply {
        desk.board.send(rt, *packet);
    }
    Done::in_one_thread(alloc, receipt)
}

/// Journals these texts in turn.
fn journal_all<R: Wait>(
    rt: &R,
    alloc: Global,
    desk: &Desk,
    agent: u8,
    texts: &[Vec<u8>],
) -> Result<Log, AllocError> {
    let mut done = Vec::with_capacity(alloc, texts.len())?;
    for text in texts {
        done.push(journal(rt, alloc, desk, agent, text)?)?;
    }
    Ok(Log {
        who: Worker::Agent(agent),
        done,
    })
}

/// The thread of an agent. An allocation failure is reported to the main thread at once.
pub(crate) fn run_agent<R: Wait>(
    rt: &R,
    alloc: Global,
    desk: &Desk,
    agent: u8,
    texts: &[Vec<u8>],
) -> Result<Log, AllocError> {
    let log = journal_all(rt, alloc, desk, agent, texts);
    if log.is_err() {
        desk.report(rt, Report::NoMemory);
    }
    log
}
