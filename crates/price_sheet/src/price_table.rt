//! The rows of prices, and looking among them.

ghost use Rattle.std.specs.Prelude.{◌≡◌, ◌≢◌, ◌↔◌, ◌<◌, ◌≤◌, ◌&&◌, Ok, Err, IfOk, IfErr, OnOk, IsTrue, [], ◌∷◌, length, map, filter, int_le};
ghost use Rattle.std.specs.Option.{option_copied};
ghost use Rattle.std.specs.List.{list_any};
ghost use Rattle.metering_model.specs.Limits.{most_sheet_rows};
ghost use Rattle.toml.specs.View.{table_view};
ghost use Rattle.metering_model.specs.BatchReading.{is_same};
ghost use Rattle.metering_model.specs.SheetRules.{has_same_key};
ghost use Rattle.metering_model.specs.PriceInForce.{latest};
ghost use Rattle.price_sheet.specs.SheetReading.{next_price, placed_price, prices_sku, prices_in};
ghost use Rattle.price_sheet.specs.Inner.Places.{IndexesPrices};

use crate::places::at_place;
use crate::price_index::PriceIndex;
use crate::rows::same_rows;
use sheet_text::{Day, KeyFault, Place, PriceRow, SheetFault};
use std::alloc::Global;
use std::marker::Model;
use toml::Table;

/// The rows of prices in the order of the sheet, with their places by SKU and day.
#[derive(Drop)]
pub(crate) struct PriceTable {
    rows: Vec<PriceRow>,
    index: PriceIndex,
}

impl Model for PriceTable {
    ghost use Rattle.std.specs.Prelude.{List};
    ghost use Rattle.metering_model.specs.Sheet.{PriceRow};
    ghost use Rattle.price_sheet.specs.Inner.Places.{IndexesPrices};

    ghost Value = { List PriceRow };

    ghost view = { λ t. t.rows.items };

    ghost invariant = { λ t. IndexesPrices t.rows.items t.index.starts.entries };
}

impl PriceTable {
    /// A table of no rows.
    pub(crate) fn new(alloc: Global) -> PriceTable
        ensures { result ≡ [] }
    {
        PriceTable {
            rows: Vec::new(alloc),
            index: PriceIndex::new(alloc),
        }
    }

    /// The rows of the tables, in order.
    pub(crate) fn read(alloc: Global, tables: &[&Table]) -> Result<PriceTable, SheetFault>
        requires { length tables.now ≤ most_sheet_rows }
        ensures taken { IfOk result
            (λ rows. prices_in [] (map (λ t. table_view t.now) tables.now) ≡ Ok rows) }
        ensures refused { IfErr result (λ fault. fault ≢ SheetFault.OutOfMemory
            → prices_in [] (map (λ t. table_view t.now) tables.now) ≡ Err fault) }
    {
        let mut rows = Vec::new(alloc);
        let mut index = PriceIndex::new(alloc);
        for table in tables {
            put_next_price(alloc, &mut rows, &mut index, table)?;
        }
        Ok(PriceTable { rows, index })
    }

    /// Whether some row prices the SKU. Nothing is allocated.
    pub(crate) fn has_sku(&self, sku: &[u8]) -> bool
        ensures { result ≡ prices_sku self.now sku.now }
    {
        self.index.has_sku(sku)
    }

    /// Of the rows of a SKU that have begun on a day, the one that began last. Nothing is allocated.
    pub(crate) fn in_force(&self, sku: &[u8], day: Day) -> Option<&PriceRow>
        ensures { option_copied result
            ≡ latest (filter (λ r. is_same r.sku sku.now && int_le r.from day) self.now) }
    {
        row_in_force(&self.rows, &self.index, sku, day)
    }

    /// The rows, in the order of the sheet.
    pub(crate) fn rows(&self) -> &[PriceRow]
        ensures { result.now ≡ self.now }
    {
        &self.rows
    }

    /// Whether the rows are the same, in the same order.
    pub(crate) fn same(&self, other: &PriceTable) -> bool
        ensures { IsTrue result ↔ (self.now ≡ other.now) }
    {
        same_rows(&self.rows, &other.rows)
    }
}

fn row_in_force<'a>(
    rows: &'a [PriceRow],
    index: &PriceIndex,
    sku: &[u8],
    day: Day,
) -> Option<&'a PriceRow>
    requires { IndexesPrices rows.now index.now.starts.entries }
    ensures { option_copied result
        ≡ latest (filter (λ r. is_same r.sku sku.now && int_le r.from day) rows.now) }
{
    match index.begun(sku, day) {
        Some(start) => rows.get(start.place as usize),
        None => None,
    }
}

/// Whether an earlier row has the SKU and the day of this one.
fn is_priced_before(rows: &[PriceRow], index: &PriceIndex, row: &PriceRow) -> bool
    requires { IndexesPrices rows.now index.now.starts.entries }
    ensures { result ≡ list_any (has_same_key row.now) rows.now }
{
    match row_in_force(rows, index, row.sku().as_bytes(), row.from()) {
        Some(earlier) => earlier.from() == row.from(),
        None => false,
    }
}

/// What was read of one more table, with its place in a fault: the row, or its first fault. OutOfMemory is returned
/// only where reading met it.
fn placed_price(
    rows: &[PriceRow],
    index: &PriceIndex,
    read: Result<PriceRow, KeyFault>,
) -> Result<PriceRow, SheetFault>
    requires few { length rows.now < most_sheet_rows }
    requires indexed { IndexesPrices rows.now index.now.starts.entries }
    ensures { result ≡ placed_price rows.now read }
{
    let place = Place::Price(rows.len() as u16 + 1);
    let row = at_place(place, read)?;
    if is_priced_before(rows, index, &row) {
        return Err(SheetFault::Duplicate(place));
    }
    Ok(row)
}

/// The row of one more table.
fn next_price(
    alloc: Global,
    rows: &[PriceRow],
    index: &PriceIndex,
    table: &Table,
) -> Result<PriceRow, SheetFault>
    requires few { length rows.now < most_sheet_rows }
    requires indexed { IndexesPrices rows.now index.now.starts.entries }
    ensures taken { IfOk result (λ row. next_price rows.now (table_view table.now) ≡ Ok row) }
    ensures refused { IfErr result (λ fault. fault ≢ SheetFault.OutOfMemory
        → next_price rows.now (table_view table.now) ≡ Err fault) }
{
    placed_price(rows, index, PriceRow::read(alloc, table))
}

/// Reads the row of one more table, and puts it behind the others and into the index.
fn put_next_price(
    alloc: Global,
    rows: &mut Vec<PriceRow>,
    index: &mut PriceIndex,
    table: &Table,
) -> Result<(), SheetFault>
    requires few { length rows.old.items < most_sheet_rows }
    requires indexed { IndexesPrices rows.old.items index.old.starts.entries }
    ensures taken { OnOk result
        (prices_in rows.old.items (table_view table.now ∷ []) ≡ Ok rows.new.items) }
    ensures indexed { OnOk result (IndexesPrices rows.new.items index.new.starts.entries) }
    ensures refused { IfErr result (λ fault. fault ≢ SheetFault.OutOfMemory
        → next_price rows.old.items (table_view table.now) ≡ Err fault) }
{
    let row = next_price(alloc, rows, index, table)?;
    if index.add(alloc, rows, &row).is_err() {
        return Err(SheetFault::OutOfMemory);
    }
    if rows.push(row).is_err() {
        return Err(SheetFault::OutOfMemory);
    }
    Ok(())
}
