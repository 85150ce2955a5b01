//! A group that has sent all its packets.

use crate::samples::alone;
use group_core::{Refusal, World};
use group_events::{Event, Offer, Reply};
use std::alloc::{AllocError, Global};
use std::test::Fail;

/// A batch without records of the one agent, as it is journaled.
fn batch(alloc: Global, seq: u32) -> Result<Event, AllocError> {
    let text = format!(in alloc; "B1|1|{seq}|0\n")?;
    Ok(Event::Journal(Offer::read(alloc, text.into_bytes())?))
}

/// Whether an event is answered so.
fn is_answered(world: &mut World, alloc: Global, event: &Event, wanted: &Reply) -> bool {
    match world.step(alloc, event) {
        Ok(reply) => reply.same(wanted),
        Err(_) => false,
    }
}

/// Whether the journaling of that batch is.
fn is_journaled(world: &mut World, alloc: Global, seq: u32, wanted: &Reply) -> bool {
    match batch(alloc, seq) {
        Ok(event) => is_answered(world, alloc, &event, wanted),
        Err(_) => false,
    }
}

/// Whether 999,999 batches are journaled, each of which is the next packet.
fn is_filled(world: &mut World, alloc: Global) -> bool {
    for seq in 1..=999_999u32 {
        if !is_journaled(world, alloc, seq, &Reply::Journaled { packet: seq }) {
            return false;
        }
    }
    true
}

/// All but one of the packets carry a batch.
#[test]
fn a_world_has_1_000_000_packets(rt: HostRuntime) -> Result<(), Fail> {
    let alloc = rt.alloc();
    let mut world = alone(alloc)?;
    let start = Event::Start { node: 0 };
    let full = Reply::Refused(Refusal::WorldFull);
    let is_begun = matches!(world.step(alloc, &start), Ok(Reply::Started { .. }));
    let is_filled = is_filled(&mut world, alloc);
    let is_told = is_journaled(&mut world, alloc, 1_000_000, &full)
        && is_answered(&mut world, alloc, &start, &full);
    assert!(rt; is_begun && is_filled && is_told);
    Ok(())
}
