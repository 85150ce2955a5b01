//! Texts at hand: one that is folded is unfolded as it was put, and a file is the same bytes whether it is folded or not.

use crate::splits::taken;
use counted_io::{Counted, FakeWriter};
use export_file::{ExportFile, HeldText, LineRoom};
use folded_text::FoldedText;
use group_events::Snapshot;
use std::alloc::{AllocError, Global};

/// From so many rows on a file is folded.
const FOLDED: u32 = 16_384;

/// A made text of so many bytes, of so many letters: of few, much of it stands before, and of many nothing does.
fn text_of(alloc: Global, letters: u8, size: usize) -> Result<Vec<u8>, AllocError> {
    let mut text = Vec::with_capacity(alloc, size)?;
    let mut state = 1u64;
    for _ in 0..size {
        state = state
            .wrapping_mul(6_364_136_223_846_793_005)
            .wrapping_add(1);
        text.push((state >> 56) as u8 % letters.max(1))?;
    }
    Ok(text)
}

/// Whether a folded text is just this one, by its length, copied behind another text and written; twice, since it stays.
fn is_text(alloc: Global, folded: &mut FoldedText, text: &[u8]) -> Result<bool, AllocError> {
    let size = text.len();
    let mut is_so = folded.has_bytes(size) && !folded.has_bytes(size.saturating_add(1));
    for _ in 0..2 {
        let mut copy = Vec::new(alloc);
        copy.push(b'>')?;
        folded.copy_to(&mut copy)?;
        let mut sink = Counted::new(Vec::new(alloc));
        is_so = is_so && folded.write(&mut sink).is_ok();
        is_so = is_so && copy.split_first() == Some((&b'>', text));
        is_so = is_so && sink.inner().as_slice() == text;
    }
    Ok(is_so)
}

/// Whether a text is unfolded as it was put: alone, and again when it was taken out and put in two parts.
fn is_unfolded(alloc: Global, letters: u8, size: usize) -> Result<bool, AllocError> {
    let text = text_of(alloc, letters, size)?;
    let mut folded = FoldedText::new(alloc);
    folded.put(alloc, &text)?;
    let is_whole = is_text(alloc, &mut folded, &text)?;
    folded.clear();
    let (front, behind) = text.split_at(text.len() / 3);
    folded.put(alloc, front)?;
    folded.put(alloc, behind)?;
    Ok(is_whole && is_text(alloc, &mut folded, &text)?)
}

/// Of sizes about that of a block, and of many blocks, where all, much, little or nothing stands before.
#[test]
fn a_text_is_unfolded_as_it_was_put(rt: HostRuntime) {
    for letters in [1, 2, 3, 255] {
        for size in [0, 1, 7, 8, 9, 17, 300, 65_535, 65_536, 65_600, 1_500_000] {
            assert!(rt; is_unfolded(rt.alloc(), letters, size) == Ok(true));
        }
    }
}

/// Whether a text at hand, written and copied, is just this one; and nothing of it where the sink fails at its first call.
fn has_text(alloc: Global, held: &mut HeldText, text: &[u8]) -> Result<bool, AllocError> {
    let mut copy = Vec::new(alloc);
    held.copy_to(&mut copy)?;
    let mut sink = Counted::new(Vec::new(alloc));
    let is_written = held.write(&mut sink).is_ok() && sink.inner().as_slice() == text;
    let mut failing = Counted::new(FakeWriter::new(Vec::new(alloc)).failing_at(1));
    let is_failed = held.write(&mut failing).is_err() && failing.inner().taken.is_empty();
    let size = text.len();
    let is_long = held.has_bytes(size) && !held.has_bytes(size.saturating_add(1));
    Ok(is_written && is_failed && is_long && copy.as_slice() == text)
}

/// Whether a text at hand is the file of the snapshot, with as many lines, when it is made that.
fn is_held(alloc: Global, held: &mut HeldText, snapshot: &Snapshot) -> Result<bool, AllocError> {
    let mut file = Vec::new(alloc);
    snapshot.put_csv(alloc, &mut file)?;
    let lines = held.set_file(alloc, &mut LineRoom::new(), snapshot)?;
    let count = file.iter().filter(|byte| **byte == b'\n').count();
    Ok(lines == count && has_text(alloc, held, &file)?)
}

/// The same of one file, of another and of the first once more, and of a kept text at last.
fn are_held_in_turn(
    alloc: Global,
    held: &mut HeldText,
    few: &Snapshot,
    many: &Snapshot,
) -> Result<bool, AllocError> {
    let are_so = is_held(alloc, held, few)?
        && is_held(alloc, held, many)?
        && is_held(alloc, held, few)?;
    held.set_text(b"K1|0\n")?;
    Ok(are_so && has_text(alloc, held, b"K1|0\n")?)
}

/// The same of a group whose agent has journaled two readings, so many, and two again.
fn are_held(alloc: Global, rows: u32) -> Result<bool, AllocError> {
    let many = taken(alloc, 1, rows)?;
    let few = taken(alloc, 1, 2)?;
    are_held_in_turn(alloc, &mut HeldText::new(alloc), &few, &many)
}

/// Of as many rows as are folded, and of one fewer.
#[test]
fn a_file_at_hand_is_the_same(rt: HostRuntime) {
    assert!(rt; are_held(rt.alloc(), FOLDED) == Ok(true));
    assert!(rt; are_held(rt.alloc(), FOLDED - 1) == Ok(true));
}

/// Puts a text once more where the first time it finds no memory, which has to leave what was there.
fn put_again(alloc: Global, folded: &mut FoldedText, text: &[u8]) -> Result<bool, AllocError> {
    match folded.put(alloc, text) {
        Ok(()) => Ok(true),
        Err(_) => {
            let is_empty = !folded.has_bytes(1);
            folded.put(alloc, text)?;
            Ok(is_empty)
        }
    }
}

/// A text is put and copied once more where the first call finds no memory.
#[test]
fn a_refused_growth_of_a_folded_text(rt: HostRuntime) {
    let Ok(text) = text_of(rt.alloc(), 2, 200_000) else {
        return;
    };
    let mut folded = FoldedText::new(rt.alloc());
    assert!(rt; put_again(rt.alloc(), &mut folded, &text) == Ok(true));
    let mut copy = Vec::new(rt.alloc());
    if folded.copy_to(&mut copy).is_err() {
        assert!(rt; copy.is_empty() && folded.copy_to(&mut copy).is_ok());
    }
    assert!(rt; copy.as_slice() == text.as_slice());
}
