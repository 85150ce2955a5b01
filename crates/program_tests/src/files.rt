//! Files by calls that no word of the program asks for: one that begins after a cut, and one of a batch with a sheet and
//! an issuer that were read before.

use batch_player::{file_between, rate_batch};
use batch_store::{Cut, Offer, Period, Store};
use counted_io::Counted;
use focus_row::rows_of;
use price_sheet::{Issuer, Sheet};
use std::alloc::{AllocError, Global};
use std::test::Fail;
use worked_texts::{AMENDED, CORRECTION, HEADER, LINE, READ, SHEET};

/// Puts a batch of the first agent into the store.
fn put(alloc: Global, store: &mut Store, text: &[u8]) -> Result<(), Fail> {
    let Offer::Good(batch) = Offer::read(alloc, text.to_vec(alloc)?)? else {
        return Err(Fail::from("no batch"));
    };
    if store.agents() < batch.view().agent() {
        return Err(Fail::from("another agent"));
    }
    store.put(batch)?;
    Ok(())
}

/// A store of one agent with the reading and its amendment.
fn store(alloc: Global) -> Result<Store, Fail> {
    let mut store = Store::new(alloc, 1)?;
    put(alloc, &mut store, READ)?;
    put(alloc, &mut store, AMENDED)?;
    Ok(store)
}

/// The cut of one agent with this last sequence.
fn cut_of(alloc: Global, seq: u32) -> Result<Cut, AllocError> {
    let mut cut = Cut::zero(alloc, 1)?;
    cut.set(1, seq.min(1_000_000));
    Ok(cut)
}

/// The file between two cuts. That there are rows between them shows that no batch is missing and that no rule is
/// broken.
fn between(
    alloc: Global,
    store: &Store,
    rules: (&Sheet, &Issuer),
    period: Period,
    from: &Cut,
    to: &Cut,
) -> Option<Vec<u8>> {
    let (sheet, issuer) = rules;
    if store.agents() != 1 || to.agents() != 1 || from.agents() != 1 || !to.at_least(from) {
        return None;
    }
    rows_of(alloc, store, sheet, issuer, period, from, to).ok()?;
    file_between(alloc, store, sheet, issuer, period, from, to).ok()
}

/// The file of a period between two last sequences, by a sheet.
fn told_by(
    alloc: Global,
    store: &Store,
    sheet: &Sheet,
    period: u16,
    seqs: (u32, u32),
) -> Option<Vec<u8>> {
    let period = Period::new(period)?;
    let from = cut_of(alloc, seqs.0).ok()?;
    let to = cut_of(alloc, seqs.1).ok()?;
    match Issuer::sample(alloc) {
        Ok(issuer) => between(alloc, store, (sheet, &issuer), period, &from, &to),
        Err(_) => None,
    }
}

/// The same by the worked sheet.
fn told(alloc: Global, store: &Store, period: u16, seqs: (u32, u32)) -> Option<Vec<u8>> {
    match Sheet::read(alloc, SHEET) {
        Ok(sheet) => told_by(alloc, store, &sheet, period, seqs),
        Err(_) => None,
    }
}

/// Whether that is these lines after the header line.
fn has_lines(alloc: Global, store: &Store, period: u16, seqs: (u32, u32), lines: &[u8]) -> bool {
    match told(alloc, store, period, seqs) {
        Some(file) => file.strip_prefix(HEADER) == Some(lines),
        None => false,
    }
}

/// Above the first batch its amendment alone is charged, as a correction in the next period.
#[test]
fn a_file_begins_behind_its_first_cut(rt: HostRuntime) -> Result<(), Fail> {
    let store = store(rt.alloc())?;
    let first = has_lines(rt.alloc(), &store, 0, (0, 1), LINE);
    let second = has_lines(rt.alloc(), &store, 1, (1, 2), CORRECTION);
    let third = has_lines(rt.alloc(), &store, 1, (2, 2), b"");
    assert!(rt; first && second && third);
    Ok(())
}

/// The file of January that the reading's batch has by itself.
fn rated(alloc: Global, sheet: &Sheet, issuer: &Issuer) -> Option<Vec<u8>> {
    let january = Period::new(0)?;
    let batch = READ.to_vec(alloc).ok()?;
    let mut sink = Counted::new(Vec::new(alloc));
    match rate_batch(alloc, january, sheet, issuer, batch, &mut sink) {
        Ok(()) => Some(sink.into_inner()),
        Err(_) => None,
    }
}

/// Whether that is the worked one, by a sheet and the sample issuer.
fn is_rated(alloc: Global, sheet: &Sheet) -> bool {
    let Ok(issuer) = Issuer::sample(alloc) else {
        return false;
    };
    match rated(alloc, sheet, &issuer) {
        Some(file) => file.strip_prefix(HEADER) == Some(LINE),
        None => false,
    }
}

/// A batch of one reading has the header line and the reading's.
#[test]
fn a_batch_is_rated_by_a_sheet_that_was_read(rt: HostRuntime) -> Result<(), Fail> {
    let is_so = match Sheet::read(rt.alloc(), SHEET) {
        Ok(sheet) => is_rated(rt.alloc(), &sheet),
        Err(_) => false,
    };
    assert!(rt; is_so);
    Ok(())
}
