//! The days from which the prices of one SKU hold, and which of them is in force.

ghost use Rattle.std.specs.Prelude.{◌≡◌, [], ◌∷◌, IfOk, OnOk};
ghost use Rattle.price_sheet.specs.Inner.Days.{begun, with_start};

use sheet_text::Day;
use std::alloc::{AllocError, Global};
use std::collections::BTreeMap;
use std::marker::Model;

/// From the day on the price at this place of the sheet holds. Places are counted from 0.
#[derive(Clone, Copy)]
pub(crate) struct Start {
    pub(crate) day: Day,
    pub(crate) place: u16,
}

/// The starts of a SKU's prices, by day.
#[derive(Drop)]
pub(crate) struct Starts {
    by_day: BTreeMap<Day, u16>,
}

impl Model for Starts {
    ghost use Rattle.std.specs.Prelude.{List, IsTrue};
    ghost use Rattle.price_sheet.specs.declared.price_in_force.Start.{Start};
    ghost use Rattle.price_sheet.specs.Inner.Days.{rise, starts_in};

    ghost Value = { List Start };

    ghost view = { λ s. starts_in s.by_day.entries };

    ghost invariant = { λ s. IsTrue (rise (starts_in s.by_day.entries)) };
}

impl Starts {
    /// One start alone.
    pub(crate) fn one(alloc: Global, start: Start) -> Result<Starts, AllocError>
        ensures { IfOk result (λ starts. starts ≡ start ∷ []) }
    {
        let mut by_day = BTreeMap::new(alloc);
        by_day.insert(start.day, start.place)?;
        Ok(Starts { by_day })
    }

    /// The last one that is not after the day.
    pub(crate) fn begun(&self, day: Day) -> Option<Start>
        ensures { result ≡ begun day self.now }
    {
        match self.by_day.range(..=day).next_back() {
            Some((day, place)) => Some(Start {
                day: *day,
                place: *place,
            }),
            None => None,
        }
    }

    /// Puts one more in at its day, where none stands on that day.
    pub(crate) fn add(&mut self, start: Start) -> Result<(), AllocError>
        ensures { OnOk result (self.new ≡ with_start self.old start) }
    {
        if self.by_day.contains_key(&start.day) {
            return Ok(());
        }
        self.by_day.insert(start.day, start.place)?;
        Ok(())
    }
}
