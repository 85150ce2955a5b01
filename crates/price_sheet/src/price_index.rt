//! The places of prices, by SKU and day.

ghost use Rattle.std.specs.Prelude.{◌≡◌, ◌<◌, [], ◌∷◌, ◌++◌, length, is_some, OnOk};
ghost use Rattle.metering_model.specs.Limits.{most_sheet_rows};
ghost use Rattle.price_sheet.specs.Inner.Days.{begun, with_start};
ghost use Rattle.price_sheet.specs.Inner.Places.{found_at, starts_of, Puts, IndexesPrices};

use crate::price_in_force::{Start, Starts};
use indexmap::IndexMap;
use sheet_text::{Day, PriceRow};
use std::alloc::{AllocError, Global};

/// Where the prices of each SKU stand in the sheet, by day.
#[derive(Drop)]
pub(crate) struct PriceIndex {
    starts: IndexMap<Vec<u8>, Starts>,
}

impl PriceIndex {
    /// The index of no rows.
    pub(crate) fn new(alloc: Global) -> PriceIndex
        ensures { IndexesPrices [] result.starts.entries }
    {
        PriceIndex {
            starts: IndexMap::new(alloc),
        }
    }

    /// Whether a row prices the SKU. Nothing is allocated.
    pub(crate) fn has_sku(&self, sku: &[u8]) -> bool
        ensures { result ≡ is_some (found_at sku.now self.now.starts.entries) }
    {
        self.starts.contains_key(sku)
    }

    /// Of the SKU's prices that have begun on the day, the start of the last. Nothing is allocated.
    pub(crate) fn begun(&self, sku: &[u8], day: Day) -> Option<Start>
        ensures { result ≡ begun day (starts_of (found_at sku.now self.now.starts.entries)) }
    {
        match self.starts.get(sku) {
            Some(starts) => starts.begun(day),
            None => None,
        }
    }

    // The first start of a SKU.
    fn put_first(&mut self, alloc: Global, sku: &[u8], start: Start) -> Result<(), AllocError>
        ensures { OnOk result (Puts sku.now
            (start ∷ []) self.old.starts.entries self.new.starts.entries) }
    {
        let key = Vec::from_slice(alloc, sku)?;
        let starts = Starts::one(alloc, start)?;
        self.starts.insert(key, starts)?;
        Ok(())
    }

    fn put(&mut self, alloc: Global, sku: &[u8], start: Start) -> Result<(), AllocError>
        ensures { OnOk result (Puts sku.now
            (with_start (starts_of (found_at sku.now self.old.starts.entries)) start)
            self.old.starts.entries self.new.starts.entries) }
    {
        match self.starts.get_mut(sku) {
            Some(starts) => starts.add(start)?,
            None => self.put_first(alloc, sku, start)?,
        }
        Ok(())
    }

    /// Puts the next row of the sheet in.
    pub(crate) fn add(
        &mut self,
        alloc: Global,
        rows: &[PriceRow],
        row: &PriceRow,
    ) -> Result<(), AllocError>
        requires few { length rows.now < most_sheet_rows }
        requires indexed { IndexesPrices rows.now self.old.starts.entries }
        ensures { OnOk result (IndexesPrices (rows.now ++ row.now ∷ []) self.new.starts.entries) }
    {
        let start = Start {
            day: row.from(),
            place: rows.len() as u16,
        };
        self.put(alloc, row.sku().as_bytes(), start)?;
        Ok(())
    }
}
