//! The price sheet.

ghost use Rattle.std.specs.Prelude.{◌≡◌, ◌≢◌, ◌↔◌, ◌≤◌, Ok, Err, IfOk, IfErr, IsOk, IsTrue, length, map};
ghost use Rattle.std.specs.Option.{option_copied};
ghost use Rattle.metering_model.specs.Limits.{most_sheet_rows};
ghost use Rattle.toml.specs.View.{table_view};
ghost use Rattle.toml.specs.Errors.{IsBlank};
ghost use Rattle.metering_model.specs.Dates.{IsBaseMonth};
ghost use Rattle.metering_model.specs.SheetRules.{IsSheet};
ghost use Rattle.metering_model.specs.PriceInForce.{price_in_force, commitment_with, region_named};
ghost use Rattle.sheet_text.specs.Keys.{base_under};
ghost use Rattle.price_sheet.specs.SheetReading.{empty_sheet, sheet_of_rows, sheet_in, sheet_of_text};

use crate::commitment_table::read_commitments;
use crate::id_table::IdTable;
use crate::places::at_place;
use crate::price_table::PriceTable;
use crate::region_table::read_regions;
use sheet_text::{
    Commitment, Day, Key, Month, Place, PriceRow, Region, SheetFault, base_under, rows_under,
};
use std::alloc::{AllocError, Global};
use std::marker::Model;
use toml::Table;

/// Prices, commitments and regions, in the order of the sheet, and the month that period 0 bills.
#[derive(Drop)]
pub struct Sheet {
    base: Month,
    prices: PriceTable,
    commitments: IdTable<Commitment>,
    regions: IdTable<Region>,
}

impl Model for Sheet {
    ghost use Rattle.metering_model.specs.Sheet as model;
    ghost use Rattle.metering_model.specs.Dates.{IsBaseMonth};

    ghost Value = { model.Sheet };

    ghost view = { λ s. record {
      base = s.base;
      prices = s.prices;
      commitments = s.commitments;
      regions = s.regions;
    } };

    ghost invariant = { λ s. IsBaseMonth s.base };
}

impl Sheet {
    /// Drops the sheet. A crate above calls it in place of `drop`, for the prover's time alone (docs/DECISIONS.md).
    pub fn release(self) {}

    /// Reads a sheet from TOML. An error is the text's first fault, or OutOfMemory, which never comes of a text of
    /// nothing but blanks and comments.
    #[tactic(auto, unfolding(crate::specs::SheetReading::sheet_of_text))]
    pub fn read(alloc: Global, text: &str) -> Result<Sheet, SheetFault>
        ensures taken { IfOk result (λ sheet. sheet_of_text text.now ≡ Ok sheet) }
        ensures refused { IfErr result
            (λ fault. fault ≢ SheetFault.OutOfMemory → sheet_of_text text.now ≡ Err fault) }
        ensures want { IfErr result (λ fault. fault ≡ SheetFault.OutOfMemory → ¬ IsBlank text.now) }
        ensures rules { IfOk result IsSheet }
    {
        match toml::table_from_str(alloc, text) {
            Ok(table) => Sheet::of_table(alloc, &table),
            Err(error) => {
                if error.is_memory() {
                    Err(SheetFault::OutOfMemory)
                } else {
                    Err(SheetFault::NotToml)
                }
            }
        }
    }

    /// A sheet with this base month, from 2000-01 to 2100-12, and no rows. An error is an allocation failure.
    pub fn empty(alloc: Global, base: Month) -> Result<Sheet, AllocError>
        requires { IsBaseMonth base }
        ensures { IfOk result (λ sheet. sheet ≡ empty_sheet base) }
    {
        Ok(Sheet {
            base,
            prices: PriceTable::new(alloc),
            commitments: IdTable::new(alloc),
            regions: IdTable::new(alloc),
        })
    }

    /// Reads a sheet from a table. Nothing is allocated before the base month is read.
    #[tactic(auto, using(crate::proofs::Chains::placed_fails), unfolding(crate::specs::SheetReading::sheet_in))]
    fn of_table(alloc: Global, table: &Table) -> Result<Sheet, SheetFault>
        ensures taken { IfOk result (λ sheet. sheet_in (table_view table.now) ≡ Ok sheet) }
        ensures refused { IfErr result
            (λ fault. fault ≢ SheetFault.OutOfMemory
            → sheet_in (table_view table.now) ≡ Err fault) }
        ensures want { IfErr result
            (λ fault. fault ≡ SheetFault.OutOfMemory
            → IsOk (base_under Key.Base (table_view table.now))) }
    {
        let base = at_place(Place::Top, base_under(table, Key::Base))?;
        let price_tables = at_place(Place::Top, rows_under(alloc, table, Key::Price))?;
        let commitment_tables = at_place(Place::Top, rows_under(alloc, table, Key::Commitment))?;
        let region_tables = at_place(Place::Top, rows_under(alloc, table, Key::Region))?;
        Sheet::of_rows(
            alloc,
            base,
            &price_tables,
            &commitment_tables,
            &region_tables,
        )
    }

    /// Reads the rows of a sheet: the prices, then the commitments, and then the regions.
    #[tactic(auto, unfolding(crate::specs::SheetReading::sheet_of_rows))]
    fn of_rows(
        alloc: Global,
        base: Month,
        price_tables: &[&Table],
        commitment_tables: &[&Table],
        region_tables: &[&Table],
    ) -> Result<Sheet, SheetFault>
        requires base { IsBaseMonth base }
        requires few { (length price_tables.now ≤ most_sheet_rows)
            × (length commitment_tables.now ≤ most_sheet_rows)
            × (length region_tables.now ≤ most_sheet_rows) }
        ensures taken { IfOk result
            (λ sheet. sheet_of_rows base (map (λ t. table_view t.now) price_tables.now)
            (map (λ t. table_view t.now) commitment_tables.now)
            (map (λ t. table_view t.now) region_tables.now) ≡ Ok sheet) }
        ensures refused { IfErr result (λ fault. fault ≢ SheetFault.OutOfMemory
            → sheet_of_rows base (map (λ t. table_view t.now) price_tables.now)
            (map (λ t. table_view t.now) commitment_tables.now)
            (map (λ t. table_view t.now) region_tables.now) ≡ Err fault) }
    {
        let prices = PriceTable::read(alloc, price_tables)?;
        let commitments = read_commitments(alloc, &prices, commitment_tables)?;
        let regions = read_regions(alloc, region_tables)?;
        Ok(Sheet {
            base,
            prices,
            commitments,
            regions,
        })
    }

    /// The prices, in the order of the sheet.
    pub fn prices(&self) -> &[PriceRow]
        ensures { result.now ≡ self.now.prices }
    {
        self.prices.rows()
    }

    /// The commitments, in the order of the sheet.
    pub fn commitments(&self) -> &[Commitment]
        ensures { result.now ≡ self.now.commitments }
    {
        self.commitments.rows()
    }

    /// The regions, in the order of the sheet.
    pub fn regions(&self) -> &[Region]
        ensures { result.now ≡ self.now.regions }
    {
        self.regions.rows()
    }

    /// The price of a SKU that is in force on a day: of those that have begun, the one that began last; None where none
    /// has.
    pub fn price(&self, sku: &[u8], day: Day) -> Option<&PriceRow>
        ensures { option_copied result ≡ price_in_force self.now sku.now day }
    {
        self.prices.in_force(sku, day)
    }

    /// The commitment with an id; None where there is none.
    pub fn commitment(&self, id: &[u8]) -> Option<&Commitment>
        ensures { option_copied result ≡ commitment_with self.now id.now }
    {
        self.commitments.with_id(id)
    }

    /// The name of the region with an id; None where the sheet names none.
    pub fn region(&self, id: &[u8]) -> Option<&[u8]>
        ensures { option_copied result ≡ region_named self.now id.now }
    {
        match self.regions.with_id(id) {
            Some(region) => Some(region.name().as_bytes()),
            None => None,
        }
    }

    /// The month that period 0 bills, from 2000-01 to 2100-12.
    pub fn base_month(&self) -> Month
        ensures value { result ≡ self.now.base }
        ensures range { IsBaseMonth result }
    {
        self.base
    }

    /// Whether the two have the same base month and the same rows in the same order.
    pub fn same(&self, other: &Sheet) -> bool
        ensures { IsTrue result ↔ (self.now ≡ other.now) }
    {
        self.base == other.base
            && self.prices.same(&other.prices)
            && self.commitments.same(&other.commitments)
            && self.regions.same(&other.regions)
    }
}
