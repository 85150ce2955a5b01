//! The rows of regions.

ghost use Rattle.std.specs.Prelude.{◌≡◌, ◌≢◌, ◌<◌, ◌≤◌, false, Ok, Err, IfOk, IfErr, [], length, map};
ghost use Rattle.std.specs.List.{list_any};
ghost use Rattle.metering_model.specs.Limits.{most_sheet_rows};
ghost use Rattle.toml.specs.View.{table_view};
ghost use Rattle.metering_model.specs.SheetRules.{has_same_region};
ghost use Rattle.price_sheet.specs.SheetReading.{next_region, placed_region, regions_in};

use crate::id_table::IdTable;
use crate::places::at_place;
use sheet_text::{KeyFault, Place, Region, SheetFault};
use std::alloc::Global;
use toml::Table;

/// The regions of the tables, in order.
pub(crate) fn read_regions(alloc: Global, tables: &[&Table]) -> Result<IdTable<Region>, SheetFault>
    requires { length tables.now ≤ most_sheet_rows }
    ensures taken { IfOk result
        (λ rows. regions_in [] (map (λ t. table_view t.now) tables.now) ≡ Ok rows) }
    ensures refused { IfErr result (λ fault. fault ≢ SheetFault.OutOfMemory
        → regions_in [] (map (λ t. table_view t.now) tables.now) ≡ Err fault) }
{
    let mut rows = IdTable::new(alloc);
    for table in tables {
        let row = next_region(alloc, &rows, table)?;
        if rows.put(alloc, row).is_err() {
            return Err(SheetFault::OutOfMemory);
        }
    }
    Ok(rows)
}

/// What was read of one more table, with its place in a fault: the region, or its first fault. OutOfMemory is returned
/// only where reading met it.
fn placed_region(
    rows: &IdTable<Region>,
    read: Result<Region, KeyFault>,
) -> Result<Region, SheetFault>
    requires few { length rows.now < most_sheet_rows }
    ensures answer { result ≡ placed_region rows.now read }
    ensures new { IfOk result (λ row. list_any (has_same_region row) rows.now ≡ false) }
{
    let place = Place::Region(rows.rows().len() as u16 + 1);
    let row = at_place(place, read)?;
    if rows.has_id_of(&row) {
        return Err(SheetFault::Duplicate(place));
    }
    Ok(row)
}

/// The region of one more table.
fn next_region(alloc: Global, rows: &IdTable<Region>, table: &Table) -> Result<Region, SheetFault>
    requires few { length rows.now < most_sheet_rows }
    ensures taken { IfOk result (λ row. next_region rows.now (table_view table.now) ≡ Ok row) }
    ensures new { IfOk result (λ row. list_any (has_same_region row) rows.now ≡ false) }
    ensures refused { IfErr result (λ fault. fault ≢ SheetFault.OutOfMemory
        → next_region rows.now (table_view table.now) ≡ Err fault) }
{
    placed_region(rows, Region::read(alloc, table))
}
