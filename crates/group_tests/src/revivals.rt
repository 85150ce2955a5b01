//! What nodes keep is told as texts, and they are revived from these.

use crate::kept::{LEARNED, PROMISED, VOTED};
use crate::samples::{alone, is_put, issuer, sheet};
use group_core::{Refusal, World};
use group_events::{Event, KeptOffer, Offer, Reply};
use metering_model::{KeptCode, KeptTextFault};
use std::alloc::{AllocError, Global};
use std::test::Fail;
use worked_texts::READ;

/// One event, and what it is answered.
#[derive(Clone, Copy, Drop)]
enum Act<'a> {
    /// The worked batch is journaled, as that packet.
    Journal(u32),
    /// The packet reaches the node, which sends that one.
    Send(u32, u8, u32),
    /// The packet reaches the node, which sends nothing.
    Hear(u32, u8),
    /// The packet reaches the node, which learns the cut of that period.
    Learn(u32, u8, u16),
    /// The node begins that ballot, and sends that packet.
    Start(u8, u32, u32),
    /// The node exports the worked file.
    Export(u8),
    /// The node keeps that text.
    Keep(u8, &'a [u8]),
    /// No such node keeps anything.
    KeepNothing(u8),
    /// The node is revived from that text.
    Revive(u8, &'a [u8]),
    /// The node is not revived from the text, for that reason.
    Refuse(u8, &'a [u8], Refusal),
}

fn event_of(alloc: Global, act: Act<'_>) -> Result<Event, AllocError> {
    match act {
        Act::Journal(_) => Ok(Event::Journal(Offer::read(alloc, READ.to_vec(alloc)?)?)),
        Act::Send(packet, node, _) | Act::Hear(packet, node) | Act::Learn(packet, node, _) => {
            Ok(Event::Deliver { packet, node })
        }
        Act::Start(node, _, _) => Ok(Event::Start { node }),
        Act::Export(node) => Ok(Event::Export { node, period: 0 }),
        Act::Keep(node, _) | Act::KeepNothing(node) => Ok(Event::Keep { node }),
        Act::Revive(node, text) | Act::Refuse(node, text, _) => {
            let offer = KeptOffer::read(alloc, text.to_vec(alloc)?)?;
            Ok(Event::Revive { node, offer })
        }
    }
}

/// Whether that is the answer, but for an export's file.
fn is_answer(reply: &Reply, act: Act<'_>) -> bool {
    match (act, reply) {
        (Act::Journal(sent), Reply::Journaled { packet }) => *packet == sent,
        (Act::Send(_, _, answer), Reply::Delivered { sent, learned }) => {
            *sent == Some(answer) && learned.is_none()
        }
        (Act::Hear(_, _), Reply::Delivered { sent, learned }) => {
            sent.is_none() && learned.is_none()
        }
        (Act::Learn(_, _, period), Reply::Delivered { sent, learned }) => {
            sent.is_none() && matches!(learned, Some(told) if told.number() == period)
        }
        (Act::Start(_, number, sent), Reply::Started { ballot, packet }) => {
            ballot.number() == number && *packet == sent
        }
        (Act::Export(_), Reply::Exported(_)) => true,
        (Act::Keep(_, text), Reply::KeptText(told)) => told.as_slice() == text,
        (Act::KeepNothing(_), Reply::Refused(told)) => *told == Refusal::NoNode,
        (Act::Revive(_, _), Reply::Restarted) => true,
        (Act::Refuse(_, _, wanted), Reply::Refused(told)) => *told == wanted,
        _ => false,
    }
}

/// Whether each is answered so, in turn.
fn are_answered(alloc: Global, world: &mut World, acts: &[Act<'_>]) -> Result<bool, AllocError> {
    for act in acts {
        let event = event_of(alloc, *act)?;
        let reply = world.step(alloc, &event)?;
        if !is_answer(&reply, *act) {
            return Ok(false);
        }
    }
    Ok(true)
}

/// The first two lines of the node that promised: a batch of no reading, where it tells of one.
const SHORT: &[u8] = b"K1|1|1|0|1|0|1\nB1|1|1|1\n";

/// The fault of that text.
const TOO_SHORT: Refusal = Refusal::BadKept(KeptTextFault {
    code: KeptCode::Batch,
    line: 2,
});

/// The worked node: it is kept, revived from the newest text alone, and exports then.
const KEPT_BYTES: &[Act<'static>] = &[
    Act::Journal(0),
    Act::Hear(0, 0),
    Act::Start(0, 1, 1),
    Act::Send(1, 0, 2),
    Act::Keep(0, PROMISED),
    Act::Revive(0, PROMISED),
    Act::Hear(2, 0),
    Act::Start(0, 2, 3),
    Act::Send(3, 0, 4),
    Act::Send(4, 0, 5),
    Act::Send(5, 0, 6),
    Act::Keep(0, VOTED),
    Act::Learn(6, 0, 0),
    Act::Keep(0, LEARNED),
    Act::Refuse(0, PROMISED, Refusal::NotKept),
    Act::Refuse(0, SHORT, TOO_SHORT),
    Act::Export(0),
];

/// Whether the first node exports that file.
fn is_exported(alloc: Global, world: &mut World) -> bool {
    match world.step(alloc, &Event::Export { node: 0, period: 0 }) {
        Ok(Reply::Exported(snapshot)) => is_put(alloc, &snapshot),
        _ => false,
    }
}

#[test]
fn the_worked_node_is_kept_and_revived(rt: HostRuntime) -> Result<(), Fail> {
    let mut world = alone(rt.alloc())?;
    let are_answered = matches!(are_answered(rt.alloc(), &mut world, KEPT_BYTES), Ok(true));
    let is_exported = is_exported(rt.alloc(), &mut world);
    assert!(rt; are_answered && is_exported);
    Ok(())
}

/// What a node keeps that has begun nothing and holds nothing, and once it holds the worked batch.
const EMPTY: &[u8] = b"K1|1|0|0|0|0|0\n";

const HOLDS: &[u8] = b"K1|1|0|0|0|0|1\n\
B1|1|1|1\nU|2025-01-10T00:00:00Z|2025-01-10T02:00:00Z|acc-7|vm-1|cpu|5400||env=prod\n";

/// A node is revived from the text of another where both keep the same, and not else. A node that is not there is told
/// before a text that cannot be read.
const OF_ANOTHER: &[Act<'static>] = &[
    Act::Keep(1, EMPTY),
    Act::Revive(0, EMPTY),
    Act::Journal(0),
    Act::Hear(0, 0),
    Act::Keep(0, HOLDS),
    Act::Refuse(1, HOLDS, Refusal::NotKept),
    Act::Refuse(0, EMPTY, Refusal::NotKept),
    Act::Keep(1, EMPTY),
    Act::Hear(0, 1),
    Act::Keep(1, HOLDS),
    Act::Revive(1, HOLDS),
    Act::Keep(1, HOLDS),
    Act::KeepNothing(2),
    Act::Refuse(2, HOLDS, Refusal::NoNode),
    Act::Refuse(2, SHORT, Refusal::NoNode),
];

#[test]
fn a_node_is_revived_from_the_text_of_another_that_keeps_the_same(
    rt: HostRuntime,
) -> Result<(), Fail> {
    let alloc = rt.alloc();
    let mut world = World::new(alloc, 2, 0, 1, sheet(alloc)?, issuer(alloc)?)?;
    let are_answered = matches!(are_answered(alloc, &mut world, OF_ANOTHER), Ok(true));
    assert!(rt; are_answered);
    Ok(())
}

/// What the voter keeps that has accepted the cut of no batch at ballot 1, and the observer that has learned it.
const ACCEPTED: &[u8] = b"K1|1|1|0|1|1|0\n0\n";

const OBSERVED: &[u8] = b"K1|1|0|1|0|0|0\n0\n";

/// An observer promises and accepts nothing, so that it keeps what it has learned alone.
const OBSERVES: &[Act<'static>] = &[
    Act::Start(0, 1, 0),
    Act::Hear(0, 1),
    Act::Send(0, 0, 1),
    Act::Send(1, 0, 2),
    Act::Hear(2, 1),
    Act::Keep(1, EMPTY),
    Act::Send(2, 0, 3),
    Act::Keep(0, ACCEPTED),
    Act::Refuse(1, ACCEPTED, Refusal::NotKept),
    Act::Learn(3, 1, 0),
    Act::Keep(1, OBSERVED),
    Act::Revive(1, OBSERVED),
    Act::Keep(1, OBSERVED),
    Act::Refuse(0, OBSERVED, Refusal::NotKept),
];

#[test]
fn an_observer_keeps_what_it_has_learned(rt: HostRuntime) -> Result<(), Fail> {
    let alloc = rt.alloc();
    let mut world = World::new(alloc, 1, 1, 1, sheet(alloc)?, issuer(alloc)?)?;
    let are_answered = matches!(are_answered(alloc, &mut world, OBSERVES), Ok(true));
    assert!(rt; are_answered);
    Ok(())
}

/// Whether the one node of a group closes a period, which is its next, with four packets.
fn closes(alloc: Global, world: &mut World, period: u16) -> bool {
    let first = u32::from(period) * 4;
    let acts = [
        Act::Start(0, u32::from(period) + 1, first),
        Act::Send(first, 0, first + 1),
        Act::Send(first + 1, 0, first + 2),
        Act::Send(first + 2, 0, first + 3),
        Act::Learn(first + 3, 0, period),
    ];
    matches!(are_answered(alloc, world, &acts), Ok(true))
}

/// Whether it closes each of 1,200.
fn closes_all(alloc: Global, world: &mut World) -> bool {
    for period in 0..1_200u16 {
        if !closes(alloc, world, period) {
            return false;
        }
    }
    true
}

/// What it keeps once it has closed all periods without a batch of its 64 agents.
fn all_closed(alloc: Global) -> Result<Vec<u8>, AllocError> {
    let mut text = Vec::new(alloc);
    text.extend_from_slice(b"K1|64|1200|1200|0|0|0\n")?;
    for _ in 0..1_200 {
        text.extend_from_slice(b"0")?;
        for _ in 1..64 {
            text.extend_from_slice(b"|0")?;
        }
        text.extend_from_slice(b"\n")?;
    }
    Ok(text)
}

/// Whether it keeps this text, and is revived from it.
fn is_kept(alloc: Global, world: &mut World, text: &[u8]) -> bool {
    let acts = [Act::Keep(0, text), Act::Revive(0, text), Act::Keep(0, text)];
    matches!(are_answered(alloc, world, &acts), Ok(true))
}

#[test]
fn a_node_keeps_1_200_cuts_of_64_agents(rt: HostRuntime) -> Result<(), Fail> {
    let alloc = rt.alloc();
    let mut world = World::new(alloc, 1, 0, 64, sheet(alloc)?, issuer(alloc)?)?;
    let is_closed = closes_all(alloc, &mut world);
    let is_kept = match all_closed(alloc) {
        Ok(text) => is_kept(alloc, &mut world, &text),
        Err(_) => false,
    };
    assert!(rt; is_closed && is_kept);
    Ok(())
}

/// A copy of the event.
fn copy_of(alloc: Global, act: Act<'_>) -> Result<Event, AllocError> {
    event_of(alloc, act)?.copy()
}

/// A copy of the event. Both are made again where the first try finds no memory.
fn made_again(alloc: Global, act: Act<'_>) -> Result<Event, AllocError> {
    match copy_of(alloc, act) {
        Ok(event) => Ok(event),
        Err(_) => copy_of(alloc, act),
    }
}

/// A copy of its answer. Each of the two is asked for again where the first call finds no memory.
fn answer_again(alloc: Global, world: &mut World, event: &Event) -> Result<Reply, AllocError> {
    let reply = match world.step(alloc, event) {
        Ok(reply) => reply,
        Err(_) => world.step(alloc, event)?,
    };
    match reply.copy(alloc) {
        Ok(copy) => Ok(copy),
        Err(_) => reply.copy(alloc),
    }
}

/// Whether an event is answered as it is to be.
fn is_answered_again(alloc: Global, world: &mut World, event: &Event, act: Act<'_>) -> bool {
    match answer_again(alloc, world, event) {
        Ok(reply) => is_answer(&reply, act),
        Err(_) => false,
    }
}

/// Whether each of the worked node's is.
fn are_answered_again(alloc: Global, world: &mut World) -> bool {
    for act in KEPT_BYTES {
        let is_so = match made_again(alloc, *act) {
            Ok(event) => is_answered_again(alloc, world, &event, *act),
            Err(_) => false,
        };
        if !is_so {
            return false;
        }
    }
    true
}

/// Whichever growth is refused, each event is answered as if none had been.
#[test]
fn a_refused_growth_changes_nothing_that_is_kept(rt: HostRuntime) {
    if let Ok(mut world) = alone(rt.alloc()) {
        let are_answered = are_answered_again(rt.alloc(), &mut world);
        assert!(rt; are_answered);
    }
}
