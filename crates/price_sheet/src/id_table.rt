//! Rows that are looked up by their ids.

ghost use Rattle.std.specs.Prelude.{◌≡◌, ◌↔◌, ◌<◌, false, IsTrue, OnOk, [], ◌∷◌, ◌++◌, length, find, slice_get};
ghost use Rattle.std.specs.Option.{option_copied, option_and_then};
ghost use Rattle.std.specs.List.{list_any};
ghost use Rattle.metering_model.specs.Limits.{most_sheet_rows};
ghost use Rattle.metering_model.specs.BatchReading.{is_same};
ghost use Rattle.price_sheet.specs.Inner.Places.{found_at};

use crate::rows::{Named, same_rows};
use indexmap::IndexMap;
use std::alloc::{AllocError, Global};
use std::marker::Model;

/// The rows in the order of the sheet, with the place of each id.
#[derive(Drop)]
pub(crate) struct IdTable<R: Named> {
    rows: Vec<R>,
    places: IndexMap<Vec<u8>, u16>,
}

impl<R: Named> Model for IdTable<R> {
    ghost use Rattle.std.specs.Prelude.{List};
    ghost use Rattle.price_sheet.specs.Inner.Places.{IndexesBy};

    ghost Value = { List R };

    ghost view = { λ t. t.rows.items };

    ghost invariant = { λ t. IndexesBy R.id t.rows.items t.places.entries };
}

impl<R: Named> IdTable<R> {
    /// A table of no rows.
    pub(crate) fn new(alloc: Global) -> IdTable<R>
        ensures { result ≡ [] }
    {
        IdTable {
            rows: Vec::new(alloc),
            places: IndexMap::new(alloc),
        }
    }

    /// The rows, in the order of the sheet.
    pub(crate) fn rows(&self) -> &[R]
        ensures { result.now ≡ self.now }
    {
        &self.rows
    }

    /// Whether the rows are the same, in the same order.
    pub(crate) fn same(&self, other: &IdTable<R>) -> bool
        ensures { IsTrue result ↔ (self.now ≡ other.now) }
    {
        same_rows(&self.rows, &other.rows)
    }

    /// The row with an id. Nothing is allocated.
    pub(crate) fn with_id(&self, id: &[u8]) -> Option<&R>
        ensures { option_copied result ≡ find (λ x. is_same (R.id x) id.now) self.now }
    {
        row_placed(&self.rows, &self.places, id)
    }

    /// Whether a row of the table has the id of this one. Nothing is allocated.
    pub(crate) fn has_id_of(&self, row: &R) -> bool
        ensures { result ≡ list_any (λ x. is_same (R.id row.now) (R.id x)) self.now }
    {
        self.places.contains_key(row.id_bytes())
    }
}

impl<R: Named + Drop> IdTable<R> {
    /// Puts a row behind the others, whose id is new.
    pub(crate) fn put(&mut self, alloc: Global, row: R) -> Result<(), AllocError>
        requires few { length self.old < most_sheet_rows }
        requires new { list_any (λ x. is_same (R.id row) (R.id x)) self.old ≡ false }
        ensures { OnOk result (self.new ≡ self.old ++ row ∷ []) }
    {
        let place = self.rows.len() as u16;
        let id = Vec::from_slice(alloc, row.id_bytes())?;
        self.rows.push(row)?;
        match self.places.insert(id, place) {
            Ok(_) => Ok(()),
            Err(_) => {
                // The rows are again those whose places are kept.
                self.rows.pop();
                Err(AllocError)
            }
        }
    }
}

/// The row at the place of an id, where it has one.
fn row_placed<'a, R>(rows: &'a [R], places: &IndexMap<Vec<u8>, u16>, id: &[u8]) -> Option<&'a R>
    ensures { option_copied result
        ≡ option_and_then (slice_get rows.now) (found_at id.now places.now.entries) }
{
    match places.get(id) {
        Some(place) => rows.get(*place as usize),
        None => None,
    }
}
