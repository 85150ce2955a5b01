//! Files of many rows: those whose lines are made in several threads are the same bytes as those made in one.

use crate::samples::{issuer, packet_in, sheet};
use counted_io::{Counted, FakeWriter};
use export_file::{ExportFile, ExportRows};
use group_core::World;
use group_events::{Event, Offer, Reply, Snapshot};
use std::alloc::{AllocError, Global};
use std::thread::Threads;

/// So many rows are split in three, where there are two processors or more, and fewer are not split.
const SPLIT: u32 = 4_800;

/// So many are split in four, where there are as many processors: three parts of two batches, and one of one.
const FOUR: u32 = 6_400;

/// The text of a batch of so many readings. The first has tags that have to be escaped, and a resource that has to be
/// quoted.
fn text_of(alloc: Global, agent: u8, seq: u32, readings: u32) -> Result<Vec<u8>, AllocError> {
    let mut text = format!(in alloc; "B1|{agent}|{seq}|{readings}\n")?;
    text.reserve(65_000)?;
    for i in 0..readings {
        text.push_str(if i == 0 {
            "U|2025-01-10T00:00:00Z|2025-01-10T02:00:00Z|a|v,|cpu|540||e=\"\\\n"
        } else {
            "U|2025-01-10T00:00:00Z|2025-01-10T02:00:00Z|a|v|cpu|5400||e=p\n"
        })?;
    }
    Ok(text.into_bytes())
}

/// Does an event, and tells the packet that its reply names. None is to be refused: here and below that is told as an
/// allocation failure.
fn sent(alloc: Global, world: &mut World, event: &Event) -> Result<Option<u32>, AllocError> {
    let reply = world.step(alloc, event)?;
    if matches!(reply, Reply::Refused(_)) {
        return Err(AllocError);
    }
    Ok(packet_in(&reply))
}

/// Delivers a packet to the one node, and then those that are sent in answer.
fn deliver(alloc: Global, world: &mut World, first: Option<u32>) -> Result<(), AllocError> {
    let mut next = first;
    for _ in 0..10 {
        let Some(packet) = next else {
            return Ok(());
        };
        next = sent(alloc, world, &Event::Deliver { packet, node: 0 })?;
    }
    Err(AllocError)
}

/// An agent journals so many readings, 1,000 a batch, and the node has them.
fn journal(alloc: Global, world: &mut World, agent: u8, rows: u32) -> Result<(), AllocError> {
    let mut left = rows;
    for seq in 1..100u32 {
        let readings = left.min(1_000);
        let offer = Offer::read(alloc, text_of(alloc, agent, seq, readings)?)?;
        let packet = sent(alloc, world, &Event::Journal(offer))?;
        deliver(alloc, world, packet)?;
        left = left.saturating_sub(readings);
        if left == 0 {
            return Ok(());
        }
    }
    Err(AllocError)
}

/// What a group of one node exports, of whose agents each has journaled so many readings.
pub(crate) fn taken(alloc: Global, agents: u8, rows: u32) -> Result<Snapshot, AllocError> {
    let agents = agents.clamp(1, 64);
    let mut world = World::new(alloc, 1, 0, agents, sheet(alloc)?, issuer(alloc)?)?;
    for agent in 1..=agents {
        journal(alloc, &mut world, agent, rows)?;
    }
    let packet = sent(alloc, &mut world, &Event::Start { node: 0 })?;
    deliver(alloc, &mut world, packet)?;
    match world.snapshot(alloc, 0, 0)? {
        Ok(snapshot) => Ok(snapshot),
        Err(_) => Err(AllocError),
    }
}

/// Whether its file has so many lines, and is the same whichever way it is made.
fn is_same(rt: &(impl Threads + Sync), alloc: Global, snapshot: &Snapshot, lines: u32) -> bool {
    let mut whole = Counted::new(Vec::new(alloc));
    let mut split = Counted::new(Vec::new(alloc));
    let are_written = snapshot.write_csv(alloc, &mut whole).is_ok()
        && snapshot.write_csv_split(rt, alloc, &mut split).is_ok();
    let count = split.inner().iter().filter(|byte| **byte == b'\n').count();
    are_written && count == lines as usize && split.inner().as_slice() == whole.inner().as_slice()
}

/// The same where each of so many agents has journaled so many readings.
fn is_same_of(
    rt: &(impl Threads + Sync),
    alloc: Global,
    agents: u8,
    rows: u32,
    lines: u32,
) -> bool {
    match taken(alloc, agents, rows) {
        Ok(snapshot) => is_same(rt, alloc, &snapshot, lines),
        Err(_) => false,
    }
}

/// Of several agents; of no row, one and two; of as many as are split, one fewer and one more; and, told for four
/// processors, of four parts whose last has one batch, of as many rows as fill four parts of two batches, one fewer,
/// and one more, which leaves the last part empty.
#[test]
fn a_file_that_is_split_is_the_same(rt: HostRuntime) {
    assert!(rt; is_same_of(&rt, rt.alloc(), 3, 1_000, 3_001));
    assert!(rt; is_same_of(&rt, rt.alloc(), 7, 1_000, 7_001));
    for rows in [
        0,
        1,
        2,
        SPLIT - 1,
        SPLIT,
        SPLIT + 1,
        FOUR,
        7_999,
        8_000,
        8_001,
    ] {
        assert!(rt; is_same_of(&rt, rt.alloc(), 1, rows, rows.saturating_add(1)));
    }
}

/// Whether a sink that takes all of a call, or a byte of each, and fails at that call is told as such, and has been
/// given a front of the file; where it isn't called so often it has all of it.
fn is_front(
    rt: &(impl Threads + Sync),
    alloc: Global,
    snapshot: &Snapshot,
    file: &[u8],
    sink: FakeWriter,
) -> bool {
    let mut sink = Counted::new(sink);
    let is_written = snapshot.write_csv_split(rt, alloc, &mut sink).is_ok();
    let failed = if is_written { 0 } else { 1 };
    let taken = sink.inner().taken.as_slice();
    sink.failed_calls() == failed
        && file.starts_with(taken)
        && is_written == (taken.len() == file.len())
}

/// Whether that is so of each sink that fails at one of twelve calls, or takes nothing from it on, and of one that
/// takes a byte a call.
fn are_fronts(rt: &(impl Threads + Sync), alloc: Global, snapshot: &Snapshot, file: &[u8]) -> bool {
    for call in 1..=12 {
        let failing = FakeWriter::new(Vec::new(alloc)).failing_at(call);
        let full = FakeWriter::new(Vec::new(alloc)).full_from(call);
        if !is_front(rt, alloc, snapshot, file, failing)
            || !is_front(rt, alloc, snapshot, file, full)
        {
            return false;
        }
    }
    let slow = FakeWriter::new(Vec::new(alloc)).byte_by_byte();
    is_front(rt, alloc, snapshot, file, slow)
}

/// The same of its own file.
fn goes_out_up_to_a_fault(rt: &(impl Threads + Sync), alloc: Global, snapshot: &Snapshot) -> bool {
    let mut file = Vec::new(alloc);
    snapshot.put_csv(alloc, &mut file).is_ok() && are_fronts(rt, alloc, snapshot, &file)
}

/// With one processor the file goes out at once.
#[test]
fn a_split_file_goes_out_up_to_a_failed_call(rt: HostRuntime) {
    let is_so = match taken(rt.alloc(), 1, FOUR) {
        Ok(snapshot) => goes_out_up_to_a_fault(&rt, rt.alloc(), &snapshot),
        Err(_) => false,
    };
    assert!(rt; is_so);
}

/// Whether it is the file of 6,400 rows.
fn has_lines(file: Option<Vec<u8>>) -> bool {
    match file {
        Some(file) => file.iter().filter(|byte| **byte == b'\n').count() == 6_401,
        None => false,
    }
}

/// The file, which is asked for again where it is not written. Where no call of its sink failed none was made.
fn split_again(rt: &(impl Threads + Sync), alloc: Global, snapshot: &Snapshot) -> Option<Vec<u8>> {
    let mut sink = Counted::new(Vec::new(alloc));
    if snapshot.write_csv_split(rt, alloc, &mut sink).is_ok() {
        return Some(sink.into_inner());
    }
    if sink.failed_calls() == 0 && !sink.inner().is_empty() {
        return None;
    }
    let mut again = Counted::new(Vec::new(alloc));
    match snapshot.write_csv_split(rt, alloc, &mut again) {
        Ok(()) => Some(again.into_inner()),
        Err(_) => None,
    }
}

/// The file is asked for again where an allocation failed, in whichever thread, and has a line for each reading.
#[test]
fn a_refused_growth_gives_no_split_file(rt: HostRuntime) {
    let is_so = match taken(rt.alloc(), 1, FOUR) {
        Ok(snapshot) => has_lines(split_again(&rt, rt.alloc(), &snapshot)),
        Err(_) => true,
    };
    assert!(rt; is_so);
}
