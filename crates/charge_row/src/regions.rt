//! The region of a row: its id, and the name that the sheet has of it.

ghost use Rattle.std.specs.Prelude.{◌≡◌, None};
ghost use Rattle.std.specs.Option.{option_copied};
ghost use Rattle.metering_model.specs.Row.{region_of, region_name_of};
ghost use Rattle.rating.specs.Lent.{model_reading};
ghost use Rattle.charge_row.specs.Regions.{IsNamed};

use crate::words::or_null;
use rating::{Reading, Sheet};

/// The columns that a reading's region gives.
#[derive(Clone, Copy)]
pub struct RegionColumns<'a> {
    /// RegionId; None is null.
    pub id: Option<&'a [u8]>,
    /// RegionName; None is null.
    pub name: Option<&'a [u8]>,
}

impl<'a> RegionColumns<'a> {
    /// The columns of no region: both are null.
    pub fn none() -> RegionColumns<'a>
        ensures id { option_copied result.id ≡ None }
        ensures name { option_copied result.name ≡ None }
    {
        RegionColumns {
            id: None,
            name: None,
        }
    }
}

/// What the sheet calls a region, or else its id.
pub(crate) fn region_name<'a>(sheet: &'a Sheet, id: &'a [u8]) -> &'a [u8]
    ensures { result.now ≡ region_name_of sheet.now id.now }
{
    sheet.region(id).unwrap_or(id)
}

/// The columns of a reading's region. Where it is the region that is near, these are that one's, and the sheet is not
/// asked.
pub(crate) fn region_columns<'a>(
    sheet: &'a Sheet,
    reading: &Reading<'a>,
    near: RegionColumns<'a>,
) -> RegionColumns<'a>
    requires { IsNamed sheet.now (option_copied near.id) (option_copied near.name) }
    ensures id { option_copied result.id ≡ region_of (model_reading reading.now) }
    ensures name { IsNamed sheet.now (option_copied result.id) (option_copied result.name) }
{
    let Some(region) = reading.region() else {
        return RegionColumns::none();
    };
    let Some(id) = or_null(region.text) else {
        return RegionColumns::none();
    };
    if near.id == Some(id) {
        return near;
    }
    RegionColumns {
        id: Some(id),
        name: Some(region_name(sheet, id)),
    }
}
