//! Logs of nodes and agents.

use group_events::Offer;
use log_text::{Increment, Log, LogCode, LogFault, put_head, put_increment, put_kept, read_log};
use std::alloc::{AllocError, Global};

/// A log with each kind of increment, and the log that begins with what is kept by it.
const LOG: &[u8] = b"G1|prod-eu|node|2|3|1|2\nround|1\nballot|0|5|0\nballot|0|5|5|1|0\n\
    learned|0|1|0\nbatch 2\nB1|2|1|1\nX|1|0|1.5\nballot|1|7|0\n";

const KEPT: &[u8] = b"G1|prod-eu|node|2|3|1|2\nkept 4\nK1|2|1|1|7|0|1\n1|0\nB1|2|1|1\nX|1|0|1.5\n";

/// The increments of its round, its promise without a vote, its learned cut, and of a batch.
const STEPS: &[u8] = b"round|1\nballot|1|7|0\nlearned|0|1|0\nbatch 2\nB1|2|1|1\nX|1|0|1.5\n";

/// A log of a node that keeps a vote, and the increments of its round, of this and of a batch.
const VOTED: &[u8] = b"G1|g|node|0|3|0|2\nkept 2\nK1|2|3|0|5|5|0\n1|0\n";

const VOTED_STEPS: &[u8] = b"round|3\nballot|1|5|5|1|0\nbatch 2\nB1|2|1|1\nX|1|0|1.5\n";

/// A log of an agent, and the log that begins with what is kept.
const AGENT: &[u8] = b"G1|g|agent|2|3|0|2\nbatch 1\nB1|2|1|0\n";

const AGENT_KEPT: &[u8] = b"G1|g|agent|2|3|0|2\nkept 2\nK1|2|0|0|0|0|1\nB1|2|1|0\n";

const BATCH: &[u8] = b"B1|2|1|1\nX|1|0|1.5\n";

/// What is read of a log, asked once more where an allocation fails.
fn read_again(alloc: Global, text: &[u8]) -> Result<Log, LogFault> {
    match read_log(alloc, text) {
        Err(LogFault::OutOfMemory) => read_log(alloc, text),
        read => read,
    }
}

/// Appends the log that begins with what is kept.
fn put_log(alloc: Global, log: &Log, text: &mut Vec<u8>) -> Result<(), AllocError> {
    put_head(text, log.head())?;
    put_kept(text, alloc, log.kept())
}

/// Appends the increments of what is kept, and of a batch.
fn put_steps(alloc: Global, log: &Log, text: &mut Vec<u8>) -> Result<(), AllocError> {
    let parts = log.kept().parts();
    put_increment(text, &Increment::Round(parts.round))?;
    put_increment(text, &Increment::Ballots(1, &parts.acceptor))?;
    if let Some(cut) = parts.learned.first() {
        put_increment(text, &Increment::Learned(0, cut))?;
    }
    let bytes = Vec::from_slice(alloc, BATCH)?;
    match Offer::read(alloc, bytes)? {
        Offer::Good(batch) => put_increment(text, &Increment::Batch(&batch)),
        Offer::Bad(_) => Ok(()),
    }
}

/// Whether a log is written as this: where an allocation fails, it is written once more from the beginning.
fn is_written(alloc: Global, log: &Log, text: &[u8]) -> bool {
    let mut written = Vec::new(alloc);
    if put_log(alloc, log, &mut written).is_err() {
        written.clear();
        let is_put = put_log(alloc, log, &mut written).is_ok();
        return is_put && written.as_slice() == text;
    }
    written.as_slice() == text
}

/// Whether its increments are written as these, once more where an allocation fails.
fn are_written(alloc: Global, log: &Log, text: &[u8]) -> bool {
    let mut written = Vec::new(alloc);
    if put_steps(alloc, log, &mut written).is_err() {
        written.clear();
        let is_put = put_steps(alloc, log, &mut written).is_ok();
        return is_put && written.as_slice() == text;
    }
    written.as_slice() == text
}

/// Whether a log is read, and written as these.
fn comes_back(alloc: Global, text: &[u8], kept: &[u8], steps: &[u8]) -> bool {
    match read_again(alloc, text) {
        Ok(log) => is_written(alloc, &log, kept) && are_written(alloc, &log, steps),
        Err(_) => false,
    }
}

/// Whether each of the logs above is.
fn all_come_back(alloc: Global) -> bool {
    comes_back(alloc, LOG, KEPT, STEPS)
        && comes_back(alloc, KEPT, KEPT, STEPS)
        && comes_back(alloc, VOTED, VOTED, VOTED_STEPS)
        && match read_again(alloc, AGENT) {
            Ok(log) => is_written(alloc, &log, AGENT_KEPT),
            Err(_) => false,
        }
}

/// Whether a text is refused there, for that.
fn is_refused(alloc: Global, text: &[u8], code: LogCode, line: u64) -> bool {
    match read_log(alloc, text) {
        Err(
            LogFault::Refused {
                code: told,
                line: at,
            },
        ) => told == code && at == line,
        _ => false,
    }
}

/// What is no failure of an allocation is answered: no clause says so.
#[test]
fn a_log_comes_back_as_what_is_kept(rt: HostRuntime) {
    let alloc = rt.alloc();
    assert!(rt; all_come_back(alloc));
    assert!(rt; is_refused(alloc, b"G1|g|node|4|3|1|2\n", LogCode::Head, 1));
    assert!(rt;
        is_refused(
            alloc,
            b"G1|g|agent|2|1|0|2\nkept 1\nK1|3|0|0|0|0|0\n",
            LogCode::Kept,
            2
        )
    );
    assert!(rt;
        is_refused(
            alloc,
            b"G1|g|node|0|1|0|2\nround|1\nround|1\n",
            LogCode::Increment,
            3
        )
    );
    assert!(rt;
        is_refused(
            alloc,
            b"G1|g|node|0|1|0|2\nround|1\nballot|0|5|0",
            LogCode::Torn,
            3
        )
    );
}

/// They come back where an allocation fails too.
#[test]
fn a_refused_growth_of_a_log_that_is_read_and_written(rt: HostRuntime) {
    assert!(rt; all_come_back(rt.alloc()));
}
