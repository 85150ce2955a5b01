//! Rows and their texts where memory runs out, and files where sinks fail.

use crate::stores::{cut_of, offered};
use batch_store::{Cut, Period, Store};
use batch_view::Offer;
use counted_io::{Counted, FakeWriter};
use focus_csv::{CsvFault, row_texts, write_file};
use focus_row::{FocusRow, RowFault, rows_of};
use price_sheet::{Issuer, Sheet};
use std::alloc::{AllocError, Global};
use worked_texts::{AMENDED, CORRECTION, HEADER, READ, SHEET};

/// What is charged in a period, by what, and the cuts that bound it.
#[derive(Drop)]
pub(crate) struct Charged {
    pub(crate) store: Store,
    pub(crate) sheet: Sheet,
    pub(crate) issuer: Issuer,
    pub(crate) period: Period,
    pub(crate) from: Cut,
    pub(crate) to: Cut,
}

/// Puts the batch of these bytes, where they are one of the store's agents.
pub(crate) fn put(store: &mut Store, alloc: Global, bytes: &[u8]) -> Result<bool, AllocError> {
    let Offer::Good(batch) = offered(alloc, bytes)? else {
        return Ok(false);
    };
    if store.agents() < batch.view().agent() {
        return Ok(false);
    }
    store.put(batch)
}

/// Usage and its amendment.
pub(crate) fn worked_store(alloc: Global) -> Result<Store, AllocError> {
    let mut store = Store::new(alloc, 1)?;
    put(&mut store, alloc, READ)?;
    put(&mut store, alloc, AMENDED)?;
    Ok(store)
}

/// The prices of this text, and the sample's issuer.
fn prices_of(alloc: Global, text: &str) -> Option<(Sheet, Issuer)> {
    let issuer = Issuer::sample(alloc).ok()?;
    match Sheet::read(alloc, text) {
        Ok(sheet) => Some((sheet, issuer)),
        Err(_) => None,
    }
}

/// The cuts of one agent's first batches.
fn cuts_of(alloc: Global, from: u32, to: u32) -> Option<(Cut, Cut)> {
    let from = cut_of(alloc, from).ok()?;
    match cut_of(alloc, to) {
        Ok(to) => Some((from, to)),
        Err(_) => None,
    }
}

impl Charged {
    /// What the sample's issuer charges in a period by the prices of this text, from one cut of one agent to another.
    /// None where memory runs out, or there is no such sheet or period.
    pub(crate) fn new(
        alloc: Global,
        store: Store,
        text: &str,
        period: u16,
        cuts: (u32, u32),
    ) -> Option<Charged> {
        let period = Period::new(period)?;
        let (from, to) = cuts_of(alloc, cuts.0, cuts.1)?;
        let (sheet, issuer) = prices_of(alloc, text)?;
        Some(Charged {
            store,
            sheet,
            issuer,
            period,
            from,
            to,
        })
    }
}

/// An amendment in February of usage that was charged before. None where memory runs out.
fn corrected(alloc: Global) -> Option<Charged> {
    let store = worked_store(alloc).ok()?;
    Charged::new(alloc, store, SHEET, 1, (1, 2))
}

/// The rows between the two cuts.
pub(crate) fn rows_in(alloc: Global, of: &Charged) -> Result<Vec<FocusRow<'_>>, RowFault> {
    let is_apart = of.from.agents() == 1 && of.to.agents() == 1 && of.to.at_least(&of.from);
    let (1, true) = (of.store.agents(), is_apart) else {
        return Err(RowFault::Missing { agent: 1, seq: 1 });
    };
    rows_of(
        alloc, &of.store, &of.sheet, &of.issuer, of.period, &of.from, &of.to,
    )
}

/// The same, asked for again where the first call finds no memory.
fn rows_again(alloc: Global, of: &Charged) -> Result<Vec<FocusRow<'_>>, RowFault> {
    match rows_in(alloc, of) {
        Ok(rows) => Ok(rows),
        Err(_) => rows_in(alloc, of),
    }
}

/// The texts of rows, asked for again where the first call finds no memory.
fn texts_again(alloc: Global, rows: &[FocusRow<'_>]) -> Result<Vec<u8>, CsvFault> {
    match row_texts(alloc, rows) {
        Ok(text) => Ok(text),
        Err(_) => row_texts(alloc, rows),
    }
}

/// Whether a sink that takes nothing is told as such, or an allocation failure before any call of it.
fn is_told(alloc: Global, rows: &[FocusRow<'_>]) -> bool {
    let mut sink = Counted::new(FakeWriter::new(Vec::new(alloc)).full_from(1));
    match write_file(alloc, rows, &mut sink) {
        Ok(()) => false,
        Err(CsvFault::Write) => sink.failed_calls() == 1,
        Err(CsvFault::OutOfMemory) => sink.inner().calls == 0,
    }
}

/// Whether a sink that takes a byte a call, and fails after these bytes of the file, is given just them; after all of
/// them it is not called again.
fn is_prefix(alloc: Global, rows: &[FocusRow<'_>], prefix: &[u8], is_whole: bool) -> bool {
    let device = FakeWriter::new(Vec::new(alloc)).byte_by_byte();
    let mut sink = Counted::new(device.failing_at(prefix.len() as u64 + 1));
    let is_written = write_file(alloc, rows, &mut sink).is_ok();
    let failed = sink.failed_calls();
    is_written == is_whole
        && sink.inner().taken.as_slice() == prefix
        && sink.inner().calls == (prefix.len() as u64).saturating_add(failed)
        && failed == if is_whole { 0 } else { 1 }
}

/// The first count of bytes such that a sink which fails after them has been given others.
fn first_other_prefix(alloc: Global, rows: &[FocusRow<'_>]) -> Result<Option<usize>, AllocError> {
    let mut file = HEADER.to_vec(alloc)?;
    file.extend_from_slice(CORRECTION)?;
    for length in 0..=file.len() {
        if !is_prefix(alloc, rows, &file[..length], length == file.len()) {
            return Ok(Some(length));
        }
    }
    Ok(None)
}

/// Whether the text of the rows is that of the correction.
fn is_correction(alloc: Global, rows: &[FocusRow<'_>]) -> bool {
    match texts_again(alloc, rows) {
        Ok(text) => text.as_slice() == CORRECTION,
        Err(_) => false,
    }
}

/// Whether what is charged is the correction, however often memory runs out once.
fn is_corrected_again(alloc: Global, of: &Charged) -> bool {
    match rows_again(alloc, of) {
        Ok(rows) => is_correction(alloc, &rows) && is_told(alloc, &rows),
        Err(_) => false,
    }
}

/// Rows, and then their texts, are asked for again where the first call finds no memory, and come out as if it had.
#[test]
fn a_refused_growth_changes_no_row(rt: HostRuntime) {
    let is_so = match corrected(rt.alloc()) {
        Some(of) => is_corrected_again(rt.alloc(), &of),
        None => true,
    };
    assert!(rt; is_so);
}

/// Whether each sink that fails is given just the bytes before it does.
fn goes_out(alloc: Global, of: &Charged) -> bool {
    match rows_in(alloc, of) {
        Ok(rows) => matches!(first_other_prefix(alloc, &rows), Ok(None)),
        Err(_) => false,
    }
}

#[test]
fn a_file_goes_out_up_to_a_failed_call(rt: HostRuntime) {
    let is_so = match corrected(rt.alloc()) {
        Some(of) => goes_out(rt.alloc(), &of),
        None => false,
    };
    assert!(rt; is_so);
}
