//! The rows of commitments.

ghost use Rattle.std.specs.Prelude.{◌≡◌, ◌≢◌, ◌<◌, ◌≤◌, false, Ok, Err, IfOk, IfErr, [], length, map};
ghost use Rattle.std.specs.List.{list_any};
ghost use Rattle.metering_model.specs.Limits.{most_sheet_rows};
ghost use Rattle.toml.specs.View.{table_view};
ghost use Rattle.metering_model.specs.SheetRules.{has_same_id};
ghost use Rattle.price_sheet.specs.SheetReading.{next_commitment, placed_commitment, commitments_in};

use crate::id_table::IdTable;
use crate::places::at_place;
use crate::price_table::PriceTable;
use sheet_text::{Commitment, Key, KeyFault, Place, SheetFault};
use std::alloc::Global;
use toml::Table;

/// The commitments of the tables, in order.
pub(crate) fn read_commitments(
    alloc: Global,
    prices: &PriceTable,
    tables: &[&Table],
) -> Result<IdTable<Commitment>, SheetFault>
    requires { length tables.now ≤ most_sheet_rows }
    ensures taken { IfOk result
        (λ rows. commitments_in prices.now [] (map (λ t. table_view t.now) tables.now) ≡ Ok rows) }
    ensures refused { IfErr result (λ fault. fault ≢ SheetFault.OutOfMemory
        → commitments_in prices.now [] (map (λ t. table_view t.now) tables.now) ≡ Err fault) }
{
    let mut rows = IdTable::new(alloc);
    for table in tables {
        let row = next_commitment(alloc, prices, &rows, table)?;
        if rows.put(alloc, row).is_err() {
            return Err(SheetFault::OutOfMemory);
        }
    }
    Ok(rows)
}

/// What was read of one more table, with its place in a fault: the commitment, or its first fault. OutOfMemory is
/// returned only where reading met it.
fn placed_commitment(
    prices: &PriceTable,
    rows: &IdTable<Commitment>,
    read: Result<Commitment, KeyFault>,
) -> Result<Commitment, SheetFault>
    requires few { length rows.now < most_sheet_rows }
    ensures answer { result ≡ placed_commitment prices.now rows.now read }
    ensures new { IfOk result (λ row. list_any (has_same_id row) rows.now ≡ false) }
{
    let place = Place::Commitment(rows.rows().len() as u16 + 1);
    let row = at_place(place, read)?;
    if rows.has_id_of(&row) {
        return Err(SheetFault::Duplicate(place));
    }
    if !prices.has_sku(row.sku().as_bytes()) {
        return Err(SheetFault::UnknownSku(place, Key::Sku));
    }
    if !prices.has_sku(row.buy().as_bytes()) {
        return Err(SheetFault::UnknownSku(place, Key::Buy));
    }
    Ok(row)
}

/// The commitment of one more table.
fn next_commitment(
    alloc: Global,
    prices: &PriceTable,
    rows: &IdTable<Commitment>,
    table: &Table,
) -> Result<Commitment, SheetFault>
    requires few { length rows.now < most_sheet_rows }
    ensures taken { IfOk result
        (λ row. next_commitment prices.now rows.now (table_view table.now) ≡ Ok row) }
    ensures new { IfOk result (λ row. list_any (has_same_id row) rows.now ≡ false) }
    ensures refused { IfErr result (λ fault. fault ≢ SheetFault.OutOfMemory
        → next_commitment prices.now rows.now (table_view table.now) ≡ Err fault) }
{
    placed_commitment(prices, rows, Commitment::read(alloc, table))
}
