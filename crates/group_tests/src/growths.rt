//! Growths that are refused, each in turn behind the gate: what a call answers then, and that it can be asked again.

use crate::samples::{
    Do, WHOLE_PATH_SENT, are_sent, event_of, is_file, issuer, packet_in, sheet, whole_path, world,
};
use counted_io::{Counted, FakeWriter};
use export_file::{ExportFile, ExportRows};
use group_core::{Stopped, World};
use group_events::{Event, Reply, Snapshot};
use metering_model::Worker;
use node_threads::{Book, Done, Receipt};
use std::alloc::{AllocError, Global};
use std::test::Fail;
use std::thread::Threads;

/// The replies, where it stopped those before.
fn replies_in(played: Result<Vec<Reply>, Stopped>) -> Vec<Reply> {
    match played {
        Ok(replies) => replies,
        Err(stopped) => stopped.replies,
    }
}

/// The rest of the events is played after those that were answered: the replies of both are those of the whole path.
fn is_played_on(alloc: Global, world: &mut World, events: &[Event], replies: &[Reply]) -> bool {
    let count = replies.len();
    let (Some(rest), Some(sent), Some(wanted)) = (
        events.get(count..),
        WHOLE_PATH_SENT.get(..count),
        WHOLE_PATH_SENT.get(count..),
    ) else {
        return false;
    };
    match world.play(alloc, rest) {
        Ok(others) => are_sent(replies, sent) && are_sent(&others, wanted),
        Err(_) => false,
    }
}

/// The whole path is played, and where it stops the rest of the events: the world stood after just those that were
/// answered.
#[test]
fn a_refused_growth_stops_between_events(rt: HostRuntime) -> Result<(), Fail> {
    let (Ok(events), Ok(mut world)) = (whole_path(rt.alloc()), world(rt.alloc())) else {
        return Ok(());
    };
    let replies = replies_in(world.play(rt.alloc(), &events));
    assert!(rt; is_played_on(rt.alloc(), &mut world, &events, &replies));
    Ok(())
}

/// A group after the whole path.
fn agreed(alloc: Global) -> Result<World, AllocError> {
    let events = whole_path(alloc)?;
    let mut world = world(alloc)?;
    match world.play(alloc, &events) {
        Ok(_) => Ok(world),
        Err(_) => Err(AllocError),
    }
}

/// A snapshot, which is asked for again where the first call finds no memory.
fn taken_again(alloc: Global, world: &World) -> Option<Snapshot> {
    let answer = match world.snapshot(alloc, 0, 0) {
        Ok(answer) => Ok(answer),
        Err(_) => world.snapshot(alloc, 0, 0),
    };
    match answer {
        Ok(Ok(snapshot)) => Some(snapshot),
        _ => None,
    }
}

/// Its file, which is put into a text of its own where it is not written for an allocation failure. The room is wide
/// enough for it.
fn file_again(alloc: Global, snapshot: &Snapshot, room: Vec<u8>) -> Result<Vec<u8>, AllocError> {
    let mut sink = Counted::new(FakeWriter::new(room));
    if snapshot.write_csv(alloc, &mut sink).is_ok() {
        return Ok(sink.into_inner().taken);
    }
    let mut text = Vec::new(alloc);
    snapshot.put_csv(alloc, &mut text)?;
    Ok(text)
}

/// Whether that is the worked file.
fn has_file_again(alloc: Global, snapshot: &Snapshot, room: Vec<u8>) -> bool {
    match file_again(alloc, snapshot, room) {
        Ok(file) => is_file(&file),
        Err(_) => false,
    }
}

/// Whether a group after the whole path exports it.
fn is_exported_again(alloc: Global, world: &World, room: Vec<u8>) -> bool {
    match taken_again(alloc, world) {
        Some(snapshot) => has_file_again(alloc, &snapshot, room),
        None => false,
    }
}

/// A snapshot is asked for again where the first call finds no memory, and so is its file.
#[test]
fn a_refused_growth_gives_no_export(rt: HostRuntime) {
    if let (Ok(world), Ok(room)) = (agreed(rt.alloc()), Vec::with_capacity(rt.alloc(), 4_096)) {
        let is_so = is_exported_again(rt.alloc(), &world, room);
        assert!(rt; is_so);
    }
}

/// A batch on its whole way through a group of one node.
const ALONE: &[Do] = &[
    Do::Journal,
    Do::Deliver(0, 0),
    Do::Start(0),
    Do::Deliver(1, 0),
    Do::Deliver(2, 0),
    Do::Deliver(3, 0),
    Do::Deliver(4, 0),
    Do::Keep(0),
    Do::Export(0),
];

/// The packets that its receipts name.
const ALONE_SENT: &[Option<u32>] = &[
    Some(0),
    None,
    Some(1),
    Some(2),
    Some(3),
    Some(4),
    None,
    None,
    None,
];

/// An act, and where it finds no memory, which must leave the history as it was, the same once more.
fn act_again(alloc: Global, book: &mut Book, first: Event, second: Event) -> Result<Receipt, Fail> {
    let entries = book.history().len();
    match book.act(alloc, Worker::Node(0), first) {
        Ok(receipt) => Ok(receipt),
        Err(_) if book.history().len() != entries => Err(Fail::from("it was written down")),
        Err(_) => Ok(book.act(alloc, Worker::Node(0), second)?),
    }
}

/// Whether each act has its receipt. Where there is no memory for the events themselves nothing is asked.
fn are_acted(alloc: Global, book: &mut Book) -> Result<bool, Fail> {
    for (place, (step, packet)) in ALONE.iter().zip(ALONE_SENT).enumerate() {
        let (Ok(first), Ok(second)) = (event_of(alloc, *step), event_of(alloc, *step)) else {
            return Ok(true);
        };
        let receipt = act_again(alloc, book, first, second)?;
        if receipt.index != place || packet_in(&receipt.reply) != *packet {
            return Ok(false);
        }
    }
    Ok(matches!(book.history().last(), Some(entry) if matches!(entry.reply, Reply::Exported(_))))
}

/// A receipt with its file, made in this thread alone or in further ones.
fn made(
    rt: &(impl Threads + Sync),
    alloc: Global,
    receipt: Receipt,
    is_alone: bool,
) -> Result<Done, AllocError> {
    if is_alone {
        return Done::in_one_thread(alloc, receipt);
    }
    Done::new(rt, alloc, receipt)
}

/// The export once more, with its file, which is made of yet another one where it finds no memory.
fn done_again(
    rt: &(impl Threads + Sync),
    alloc: Global,
    book: &mut Book,
    is_alone: bool,
) -> Result<Done, Fail> {
    let export = || Event::Export { node: 0, period: 0 };
    let receipt = act_again(alloc, book, export(), export())?;
    match made(rt, alloc, receipt, is_alone) {
        Ok(done) => Ok(done),
        Err(_) => {
            let receipt = book.act(alloc, Worker::Node(0), export())?;
            Ok(made(rt, alloc, receipt, is_alone)?)
        }
    }
}

#[test]
fn a_refused_growth_leaves_the_book(rt: HostRuntime) -> Result<(), Fail> {
    let (Ok(sheet), Ok(issuer)) = (sheet(rt.alloc()), issuer(rt.alloc())) else {
        return Ok(());
    };
    let Ok(mut book) = Book::new(rt.alloc(), 1, 0, 1, sheet, issuer) else {
        return Ok(());
    };
    assert!(rt; are_acted(rt.alloc(), &mut book)?);
    if book.history().len() == ALONE.len() {
        for is_alone in [false, true] {
            let done = done_again(&rt, rt.alloc(), &mut book, is_alone)?;
            assert!(rt; matches!(done.file(), Some(file) if is_file(file)));
        }
    }
    Ok(())
}
