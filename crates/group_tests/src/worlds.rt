//! What a group answers where memory is found.

use crate::samples::{WHOLE_PATH_SENT, are_sent, is_file, is_put, whole_path, world};
use counted_io::Counted;
use export_file::ExportRows;
use group_core::World;
use group_events::{Event, Snapshot};
use std::alloc::{AllocError, Global};
use std::test::Fail;

/// Copies of the events of the whole path.
fn copies(alloc: Global) -> Result<Vec<Event>, AllocError> {
    let events = whole_path(alloc)?;
    let mut copies = Vec::new(alloc);
    for event in &events {
        copies.push(event.copy()?)?;
    }
    Ok(copies)
}

/// A group after the whole path, whose events are copies, and whose replies name the worked packets.
fn agreed(alloc: Global) -> Result<World, Fail> {
    let mut world = world(alloc)?;
    let events = copies(alloc)?;
    let Ok(replies) = world.play(alloc, &events) else {
        return Err(Fail::from("stopped"));
    };
    if !are_sent(&replies, WHOLE_PATH_SENT) {
        return Err(Fail::from("other replies"));
    }
    Ok(world)
}

/// Whether a snapshot writes the worked file.
fn is_written(alloc: Global, snapshot: &Snapshot) -> bool {
    let mut sink = Counted::new(Vec::new(alloc));
    snapshot.write_csv(alloc, &mut sink).is_ok() && is_file(sink.inner())
}

/// Whether it has one row.
fn has_one_row(alloc: Global, snapshot: &Snapshot) -> bool {
    let Ok(batches) = snapshot.rows(alloc) else {
        return false;
    };
    match batches.all(alloc) {
        Ok(rows) => rows.len() == 1,
        Err(_) => false,
    }
}

/// Whether a node has that of the first period.
fn has_worked_file(alloc: Global, world: &World, node: u8) -> bool {
    match world.snapshot(alloc, node, 0) {
        Ok(Ok(snapshot)) => {
            is_written(alloc, &snapshot)
                && is_put(alloc, &snapshot)
                && has_one_row(alloc, &snapshot)
        }
        _ => false,
    }
}

#[test]
fn the_whole_path_has_its_replies_and_files(rt: HostRuntime) -> Result<(), Fail> {
    let world = agreed(rt.alloc())?;
    let first = has_worked_file(rt.alloc(), &world, 0);
    let second = has_worked_file(rt.alloc(), &world, 1);
    assert!(rt; first && second);
    Ok(())
}
