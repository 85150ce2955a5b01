//! What a caller writes: the functions that stand word for word in the READMEs of `price_sheet`, `batch_store` and
//! `focus_csv`.

use crate::files::{Charged, worked_store};
use batch_store::{Cut, Period, Store};
use batch_view::Offer;
use counted_io::Counted;
use focus_csv::{CsvFault, write_file};
use focus_row::{FocusRow, RowFault, rows_of};
use price_sheet::{Issuer, Place, PriceRow, Sheet, SheetFault};
use std::alloc::{AllocError, Global};
use utc_calendar::{Day, Month};
use worked_texts::{AMENDED, HEADER, LINE, READ, SHEET};

/// The list price of a row, and for what.
fn price_of(alloc: Global, row: &PriceRow) -> Result<String, AllocError> {
    let list = row.list().write(alloc)?;
    format!(in alloc; "{list} for {} {}", row.per(), row.consumed_unit())
}

/// The list price of a SKU on a day, or why there is none.
fn list_price(alloc: Global, text: &str, sku: &str, day: Day) -> Result<String, AllocError> {
    match Sheet::read(alloc, text) {
        Ok(sheet) => match sheet.price(sku.as_bytes(), day) {
            Some(row) => price_of(alloc, row),
            None => format!(in alloc; "{sku} has no price yet"),
        },
        Err(SheetFault::BadValue(Place::Price(row), key)) => {
            format!(in alloc; "price {row}: bad {key}")
        }
        Err(SheetFault::OutOfMemory) => Err(AllocError),
        Err(fault) => format!(in alloc; "no sheet: {fault}"),
    }
}

/// Whether the text is a batch of the store's agents, which is put there.
fn is_put(alloc: Global, store: &mut Store, text: &[u8]) -> Result<bool, AllocError> {
    match Offer::read(alloc, text.to_vec(alloc)?)? {
        Offer::Good(batch) if batch.view().agent() <= store.agents() => {
            store.put(batch)?;
            Ok(true)
        }
        _ => Ok(false),
    }
}

/// The first batch that agent 1 lacks, and how far all are due.
fn missing_and_due(
    alloc: Global,
    texts: &[&[u8]],
    period: Period,
) -> Result<Option<(u32, Cut)>, AllocError> {
    let mut store = Store::new(alloc, 2)?;
    for text in texts {
        if !is_put(alloc, &mut store, text)? {
            return Ok(None);
        }
    }
    let before = Cut::zero(alloc, store.agents())?;
    let due = store.due_front(alloc, &before, period, Month::of(2025, 1))?;
    Ok(Some((store.first_absent(1), due)))
}

/// The rows' file.
fn file_with(alloc: Global, rows: &[FocusRow<'_>]) -> Result<Vec<u8>, CsvFault> {
    let mut sink = Counted::new(Vec::new(alloc));
    write_file(alloc, rows, &mut sink)?;
    Ok(sink.into_inner())
}

/// A period's file between cuts. None where batches are missing, or break a rule.
fn file_of(
    alloc: Global,
    store: &Store,
    sheet: &Sheet,
    issuer: &Issuer,
    period: Period,
    from: &Cut,
    to: &Cut,
) -> Result<Option<Vec<u8>>, CsvFault> {
    if store.agents() != from.agents() || store.agents() != to.agents() || !to.at_least(from) {
        return Ok(None);
    }
    match rows_of(alloc, store, sheet, issuer, period, from, to) {
        Ok(rows) => Ok(Some(file_with(alloc, &rows)?)),
        Err(RowFault::OutOfMemory) => Err(CsvFault::OutOfMemory),
        Err(_) => Ok(None),
    }
}

/// A second price whose SKU is no text.
const NO_TEXT: &str = "[[price]]\nsku = 1\n";

/// Whether that is what is said of a price.
fn is_said(alloc: Global, text: &str, sku: &str, day: Day, said: &str) -> bool {
    match list_price(alloc, text, sku, day) {
        Ok(price) => price.as_str() == said,
        Err(_) => false,
    }
}

/// The same where one more row stands in the worked sheet.
fn is_said_with(alloc: Global, row: &str, day: Day, said: &str) -> bool {
    match format!(in alloc; "{SHEET}{row}") {
        Ok(text) => is_said(alloc, text.as_str(), "cpu", day, said),
        Err(_) => false,
    }
}

/// Whether the worked price is told on that first day, and not on the one before, nor by a sheet that is none.
fn are_said(alloc: Global, first: Day, before: Day) -> bool {
    is_said(alloc, SHEET, "cpu", first, "0.1 for 3600 Seconds")
        && is_said(alloc, SHEET, "cpu", before, "cpu has no price yet")
        && is_said_with(alloc, NO_TEXT, first, "price 2: bad sku")
        && is_said(alloc, "", "cpu", first, "no sheet: S2 top base")
}

#[test]
fn a_list_price_is_asked_for(rt: HostRuntime) {
    let are_said = match (Day::read(b"2025-01-01"), Day::read(b"2024-12-31")) {
        (Some(first), Some(before)) => are_said(rt.alloc(), first, before),
        _ => false,
    };
    assert!(rt; are_said);
}

/// The third batch, of February.
const IN_FEBRUARY: &[u8] =
    b"B1|1|3|1\nU|2025-02-10T00:00:00Z|2025-02-10T02:00:00Z|acc-7|vm-1|cpu|5400||env=prod\n";

/// Whether the first batch that is missing has this sequence, and the cut that is due this line.
fn is_due(alloc: Global, told: &(u32, Cut), missing: u32, line: &[u8]) -> bool {
    match told.1.write(alloc) {
        Ok(text) => told.0 == missing && text.as_slice() == line,
        Err(_) => false,
    }
}

/// Whether that is so of these batches in January; without a line, whether one of them is no batch of the group.
fn are_due(alloc: Global, texts: &[&[u8]], missing: u32, line: Option<&[u8]>) -> bool {
    let Some(january) = Period::new(0) else {
        return false;
    };
    match (missing_and_due(alloc, texts, january), line) {
        (Ok(Some(told)), Some(line)) => is_due(alloc, &told, missing, line),
        (Ok(None), None) => true,
        _ => false,
    }
}

#[test]
fn what_is_missing_and_what_is_due_is_asked_for(rt: HostRuntime) {
    let alloc = rt.alloc();
    assert!(rt; are_due(alloc, &[READ, AMENDED, IN_FEBRUARY], 4, Some(b"2|0")));
    assert!(rt; are_due(alloc, &[READ, b"B1|3|1|0\n"], 0, None));
}

/// Whether the file has the worked line alone after its header line.
fn is_worked(file: Result<Option<Vec<u8>>, CsvFault>) -> bool {
    match file {
        Ok(Some(file)) => file.strip_prefix(HEADER) == Some(LINE),
        _ => false,
    }
}

/// Whether it is the file of January, in which usage is charged.
fn is_asked_for(alloc: Global, of: &Charged) -> bool {
    is_worked(file_of(
        alloc, &of.store, &of.sheet, &of.issuer, of.period, &of.from, &of.to,
    ))
}

/// Whether it is that of what is charged by the worked sheet.
fn is_asked_for_in(alloc: Global, store: Store) -> bool {
    match Charged::new(alloc, store, SHEET, 0, (0, 1)) {
        Some(of) => is_asked_for(alloc, &of),
        None => false,
    }
}

/// The same of the worked batches.
fn is_file_of_worked(alloc: Global) -> bool {
    match worked_store(alloc) {
        Ok(store) => is_asked_for_in(alloc, store),
        Err(_) => false,
    }
}

#[test]
fn the_file_of_a_period_is_asked_for(rt: HostRuntime) {
    assert!(rt; is_file_of_worked(rt.alloc()));
}
