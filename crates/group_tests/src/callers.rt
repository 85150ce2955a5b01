//! What a caller writes: the functions that stand word for word in the README of `group_core`.

use crate::samples::{is_file, issuer, sheet};
use export_file::ExportFile;
use group_core::{Refusal, World};
use group_events::{Event, Offer, Reply, Sheet};
use sheet_text::Issuer;
use std::alloc::{AllocError, Global};
use std::sync::Arc;
use worked_texts::{AMENDED, READ};

/// The voter and the observer agree on the first period.
fn agree(alloc: Global, world: &mut World) -> Result<(), AllocError> {
    world.step(alloc, &Event::Start { node: 0 })?;
    for (packet, node) in [(0, 0), (0, 1), (1, 0), (2, 0), (3, 0), (4, 1)] {
        world.step(alloc, &Event::Deliver { packet, node })?;
    }
    Ok(())
}

/// The observer's file of that period, or why there is none.
fn exported(alloc: Global, world: &World) -> Result<Result<Vec<u8>, Refusal>, AllocError> {
    match world.snapshot(alloc, 1, 0)? {
        Ok(snapshot) => {
            let mut file = Vec::new(alloc);
            snapshot.put_csv(alloc, &mut file)?;
            Ok(Ok(file))
        }
        Err(refusal) => Ok(Err(refusal)),
    }
}

/// The observer's file of the first period, or why it is refused.
fn observed(
    alloc: Global,
    sheet: Arc<Sheet>,
    issuer: Arc<Issuer>,
    offer: Offer,
) -> Result<Result<Vec<u8>, Refusal>, AllocError> {
    let mut world = World::new(alloc, 1, 1, 2, sheet, issuer)?;
    if let Reply::Refused(refusal) = world.step(alloc, &Event::Journal(offer))? {
        return Ok(Err(refusal));
    }
    agree(alloc, &mut world)?;
    exported(alloc, &world)
}

/// What is observed of that batch.
fn observed_of(alloc: Global, text: &[u8]) -> Result<Result<Vec<u8>, Refusal>, AllocError> {
    let offer = Offer::read(alloc, text.to_vec(alloc)?)?;
    observed(alloc, sheet(alloc)?, issuer(alloc)?, offer)
}

/// Whether it is the worked file, of the worked batch.
fn is_observed(alloc: Global) -> bool {
    match observed_of(alloc, READ) {
        Ok(Ok(file)) => is_file(&file),
        _ => false,
    }
}

/// Whether the second batch is refused where the first is not there.
fn is_refused(alloc: Global) -> bool {
    match observed_of(alloc, AMENDED) {
        Ok(Err(refusal)) => refusal == Refusal::WrongSeq { wanted: 1 },
        _ => false,
    }
}

#[test]
fn an_observer_is_asked_for_the_file(rt: HostRuntime) {
    assert!(rt; is_observed(rt.alloc()));
    assert!(rt; is_refused(rt.alloc()));
}
