//! Texts of what a node keeps: read, written as they were, and refused at their first fault.

use group_events::{Kept, KeptFault, KeptOffer};
use metering_model::KeptCode;
use std::alloc::{AllocError, Global};
use std::test::Fail;

/// What a node keeps that has promised ballot 1, and holds the worked batch.
pub(crate) const PROMISED: &[u8] = b"K1|1|1|0|1|0|1\n\
B1|1|1|1\nU|2025-01-10T00:00:00Z|2025-01-10T02:00:00Z|acc-7|vm-1|cpu|5400||env=prod\n";

/// And once it has accepted the cut up to that batch at ballot 2.
pub(crate) const VOTED: &[u8] = b"K1|1|2|0|2|2|1\n1\n\
B1|1|1|1\nU|2025-01-10T00:00:00Z|2025-01-10T02:00:00Z|acc-7|vm-1|cpu|5400||env=prod\n";

/// And once it has learned it.
pub(crate) const LEARNED: &[u8] = b"K1|1|2|1|0|0|1\n1\n\
B1|1|1|1\nU|2025-01-10T00:00:00Z|2025-01-10T02:00:00Z|acc-7|vm-1|cpu|5400||env=prod\n";

/// Whether the text is read, and written as it was.
fn is_read_back(alloc: Global, text: &[u8]) -> Result<bool, AllocError> {
    match Kept::read(alloc, text) {
        Ok(kept) => Ok(kept.write(alloc)?.as_slice() == text),
        Err(KeptFault::OutOfMemory) => Err(AllocError),
        Err(KeptFault::Refused { .. }) => Ok(false),
    }
}

#[test]
fn a_kept_text_is_read_back(rt: HostRuntime) -> Result<(), Fail> {
    for text in [PROMISED, VOTED, LEARNED] {
        assert!(rt; is_read_back(rt.alloc(), text)?);
    }
    Ok(())
}

/// Whether the text is refused with that code at that line.
fn is_refused(alloc: Global, text: &[u8], code: KeptCode, line: u64) -> bool {
    match Kept::read(alloc, text) {
        Err(
            KeptFault::Refused {
                code: told,
                line: at,
            },
        ) => told == code && at == line,
        _ => false,
    }
}

/// Within each line, so that its last one has no line feed: no schedule can carry such a text. The head line has 15
/// bytes, the vote's cut 2, and the batch the others. At the end of a text a byte is one too many.
#[test]
fn a_kept_text_is_refused_where_a_line_is_cut(rt: HostRuntime) {
    for length in 0..VOTED.len() {
        let (code, line) = match length {
            0..=14 => (KeptCode::Head, 1),
            15 | 16 => (KeptCode::Cut, 2),
            _ => (KeptCode::Batch, 3),
        };
        assert!(rt; is_refused(rt.alloc(), &VOTED[..length], code, line));
    }
    assert!(rt; is_refused(rt.alloc(), b"K1|1|0|0|0|0|0\nx", KeptCode::Extra, 2));
}

/// What is kept, which is read again where the first call finds no memory.
fn read_again(alloc: Global, text: &[u8]) -> Result<Kept, Fail> {
    let read = match Kept::read(alloc, text) {
        Err(KeptFault::OutOfMemory) => Kept::read(alloc, text),
        read => read,
    };
    match read {
        Ok(kept) => Ok(kept),
        Err(_) => Err(Fail::from("refused")),
    }
}

/// Its text, which is written again where the first call finds no memory.
fn written_again(alloc: Global, kept: &Kept) -> Result<Vec<u8>, AllocError> {
    match kept.write(alloc) {
        Ok(text) => Ok(text),
        Err(_) => kept.write(alloc),
    }
}

#[test]
fn a_refused_growth_of_a_text_that_is_read_and_written(rt: HostRuntime) -> Result<(), Fail> {
    for text in [PROMISED, VOTED, LEARNED] {
        let kept = read_again(rt.alloc(), text)?;
        let written = written_again(rt.alloc(), &kept)?;
        assert!(rt; written.as_slice() == text);
    }
    Ok(())
}

/// Whether a copy of the offer that is made of a text is good, and the same.
fn is_offered(alloc: Global, text: &[u8]) -> Result<bool, AllocError> {
    let offer = KeptOffer::read(alloc, text.to_vec(alloc)?)?;
    let copy = offer.copy()?;
    Ok(matches!(copy, KeptOffer::Good(_)) && copy.same(&offer))
}

#[test]
fn a_refused_growth_of_an_offered_text(rt: HostRuntime) -> Result<(), Fail> {
    let good = match is_offered(rt.alloc(), VOTED) {
        Ok(good) => good,
        Err(_) => is_offered(rt.alloc(), VOTED)?,
    };
    assert!(rt; good);
    Ok(())
}
