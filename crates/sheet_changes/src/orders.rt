//! What the rows of two sheets are listed by, in order, each once.

ghost use Rattle.std.specs.Prelude.{◌≡◌, [], ◌++◌, map, OnOk};
ghost use Rattle.std.specs.Cmp.Lexicographic.{slice_cmp};
ghost use Rattle.std.specs.Ordering.{nat_cmp};
ghost use Rattle.sheet_changes.specs.FieldChanges.{AreSorted, commitment_ids, price_day, price_day_cmp, price_days, region_ids};
ghost use Rattle.sheet_changes.specs.Inner.Listed.{day_of_pair};

use price_sheet::{Commitment, PriceRow, Region, Sheet};
use std::alloc::AllocError;
use utc_calendar::Day;

fn add_days<'a>(days: &mut Vec<(&'a [u8], Day)>, rows: &'a [PriceRow]) -> Result<(), AllocError>
    ensures { OnOk result (map day_of_pair days.new.items
        ≡ map day_of_pair days.old.items ++ map price_day rows.now) }
{
    for row in rows {
        let Ok(()) = days.push((row.sku().as_bytes(), row.from())) else {
            return Err(AllocError);
        };
    }
    Ok(())
}

/// Puts each SKU with each day on which a price of it begins in either sheet into an empty list, by bytes and then by days.
pub(crate) fn put_price_days<'a>(
    days: &mut Vec<(&'a [u8], Day)>,
    old: &'a Sheet,
    new: &'a Sheet,
) -> Result<(), AllocError>
    requires { days.old.items ≡ [] }
    ensures { OnOk result (AreSorted price_day_cmp (price_days old.now new.now)
        (map day_of_pair days.new.items)) }
{
    let Ok(()) = add_days(days, old.prices()) else {
        return Err(AllocError);
    };
    let Ok(()) = add_days(days, new.prices()) else {
        return Err(AllocError);
    };
    days.sort_unstable();
    days.dedup();
    Ok(())
}

fn add_commitments<'a>(ids: &mut Vec<&'a [u8]>, rows: &'a [Commitment]) -> Result<(), AllocError>
    ensures { OnOk result (map (λ id. id.now) ids.new.items
        ≡ map (λ id. id.now) ids.old.items ++ map (λ c. c.id) rows.now) }
{
    for row in rows {
        let Ok(()) = ids.push(row.id().as_bytes()) else {
            return Err(AllocError);
        };
    }
    Ok(())
}

fn add_regions<'a>(ids: &mut Vec<&'a [u8]>, rows: &'a [Region]) -> Result<(), AllocError>
    ensures { OnOk result (map (λ id. id.now) ids.new.items
        ≡ map (λ id. id.now) ids.old.items ++ map (λ x. x.id) rows.now) }
{
    for row in rows {
        let Ok(()) = ids.push(row.id().as_bytes()) else {
            return Err(AllocError);
        };
    }
    Ok(())
}

/// Puts the id of each commitment of either sheet into an empty list, by bytes.
pub(crate) fn put_commitment_ids<'a>(
    ids: &mut Vec<&'a [u8]>,
    old: &'a Sheet,
    new: &'a Sheet,
) -> Result<(), AllocError>
    requires { ids.old.items ≡ [] }
    ensures { OnOk result (AreSorted (slice_cmp nat_cmp) (commitment_ids old.now new.now)
        (map (λ id. id.now) ids.new.items)) }
{
    let Ok(()) = add_commitments(ids, old.commitments()) else {
        return Err(AllocError);
    };
    let Ok(()) = add_commitments(ids, new.commitments()) else {
        return Err(AllocError);
    };
    ids.sort_unstable();
    ids.dedup();
    Ok(())
}

/// Puts the id of each region of either sheet into an empty list, by bytes.
pub(crate) fn put_region_ids<'a>(
    ids: &mut Vec<&'a [u8]>,
    old: &'a Sheet,
    new: &'a Sheet,
) -> Result<(), AllocError>
    requires { ids.old.items ≡ [] }
    ensures { OnOk result (AreSorted (slice_cmp nat_cmp) (region_ids old.now new.now)
        (map (λ id. id.now) ids.new.items)) }
{
    let Ok(()) = add_regions(ids, old.regions()) else {
        return Err(AllocError);
    };
    let Ok(()) = add_regions(ids, new.regions()) else {
        return Err(AllocError);
    };
    ids.sort_unstable();
    ids.dedup();
    Ok(())
}
