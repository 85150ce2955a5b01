//! What the tests have in common: sheet and issuer, the worked events with their answers, and a plan.

use export_file::ExportFile;
use group_core::World;
use group_events::{Event, Offer, Reply, Sheet, Snapshot};
use node_threads::Plan;
use sheet_text::Issuer;
use std::alloc::{AllocError, Global};
use std::sync::Arc;
use worked_texts::{AMENDED, HEADER, ISSUER, LINE, READ, SHEET};

/// One event of the worked ones.
#[derive(Clone, Copy, Drop)]
pub(crate) enum Do {
    Journal,
    Deliver(u32, u8),
    Start(u8),
    Export(u8),
    Keep(u8),
}

/// A worked reading is journaled, delivered to two nodes of three, agreed on, and exported by both.
const WHOLE_PATH: &[Do] = &[
    Do::Journal,
    Do::Deliver(0, 0),
    Do::Deliver(0, 1),
    Do::Start(0),
    Do::Deliver(1, 0),
    Do::Deliver(1, 1),
    Do::Deliver(2, 0),
    Do::Deliver(3, 0),
    Do::Deliver(4, 0),
    Do::Deliver(4, 1),
    Do::Deliver(5, 0),
    Do::Deliver(6, 0),
    Do::Export(0),
    Do::Deliver(5, 1),
    Do::Deliver(6, 1),
    Do::Export(1),
];

/// The packets that its replies name.
pub(crate) const WHOLE_PATH_SENT: &[Option<u32>] = &[
    Some(0),
    None,
    None,
    Some(1),
    Some(2),
    Some(3),
    None,
    Some(4),
    Some(5),
    Some(6),
    None,
    None,
    None,
    None,
    None,
    None,
];

/// The sheet of all groups. It is right, so an error is an allocation failure, here and below.
pub(crate) fn sheet(alloc: Global) -> Result<Arc<Sheet>, AllocError> {
    match Sheet::read(alloc, SHEET) {
        Ok(sheet) => Ok(Arc::new(alloc, sheet)?),
        Err(_) => Err(AllocError),
    }
}

/// The issuer of all groups.
pub(crate) fn issuer(alloc: Global) -> Result<Arc<Issuer>, AllocError> {
    match Issuer::read(alloc, ISSUER) {
        Ok(issuer) => Ok(Arc::new(alloc, issuer)?),
        Err(_) => Err(AllocError),
    }
}

/// A group of three voters and one agent.
pub(crate) fn world(alloc: Global) -> Result<World, AllocError> {
    World::new(alloc, 3, 0, 1, sheet(alloc)?, issuer(alloc)?)
}

/// A group of one node and one agent.
pub(crate) fn alone(alloc: Global) -> Result<World, AllocError> {
    World::new(alloc, 1, 0, 1, sheet(alloc)?, issuer(alloc)?)
}

/// The event, of period 0 where it is an export.
pub(crate) fn event_of(alloc: Global, step: Do) -> Result<Event, AllocError> {
    match step {
        Do::Journal => Ok(Event::Journal(Offer::read(alloc, READ.to_vec(alloc)?)?)),
        Do::Deliver(packet, node) => Ok(Event::Deliver { packet, node }),
        Do::Start(node) => Ok(Event::Start { node }),
        Do::Export(node) => Ok(Event::Export { node, period: 0 }),
        Do::Keep(node) => Ok(Event::Keep { node }),
    }
}

/// The events of the whole path.
pub(crate) fn whole_path(alloc: Global) -> Result<Vec<Event>, AllocError> {
    let mut events = Vec::new(alloc);
    for step in WHOLE_PATH {
        events.push(event_of(alloc, *step)?)?;
    }
    Ok(events)
}

/// The packet that a reply names.
pub(crate) fn packet_in(reply: &Reply) -> Option<u32> {
    match reply {
        Reply::Journaled { packet } => Some(*packet),
        Reply::Started { packet, .. } => Some(*packet),
        Reply::Delivered { sent, .. } => *sent,
        _ => None,
    }
}

/// Whether the replies name these packets, in turn, and no more.
pub(crate) fn are_sent(replies: &[Reply], packets: &[Option<u32>]) -> bool {
    if replies.len() != packets.len() {
        return false;
    }
    for (reply, packet) in replies.iter().zip(packets) {
        if packet_in(reply) != *packet {
            return false;
        }
    }
    true
}

/// Whether the text is the file of the worked reading in January 2025.
pub(crate) fn is_file(text: &[u8]) -> bool {
    text.strip_prefix(HEADER) == Some(LINE)
}

/// Whether the snapshot appends the worked file to a text.
pub(crate) fn is_put(alloc: Global, snapshot: &Snapshot) -> bool {
    let mut text = Vec::new(alloc);
    snapshot.put_csv(alloc, &mut text).is_ok() && is_file(&text)
}

/// The texts of one agent: a reading, and its amendment.
fn texts(alloc: Global) -> Result<Vec<Vec<u8>>, AllocError> {
    let mut texts = Vec::new(alloc);
    for text in [READ, AMENDED] {
        texts.push(text.to_vec(alloc)?)?;
    }
    Ok(texts)
}

/// A plan of that many voters and observers, with one agent that has two batches of January and as many periods. A gate
/// is asked 1,000,000 times at most.
pub(crate) fn plan_of(
    alloc: Global,
    voters: u8,
    observers: u8,
    periods: u16,
) -> Result<Plan, AllocError> {
    let mut journals = Vec::new(alloc);
    journals.push(texts(alloc)?)?;
    Ok(Plan {
        voters,
        observers,
        sheet: sheet(alloc)?,
        issuer: issuer(alloc)?,
        journals,
        periods,
        turns: 1_000_000,
    })
}
