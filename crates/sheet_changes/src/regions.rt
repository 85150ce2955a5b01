//! The regions that two sheets name otherwise, and a line for each.

ghost use Rattle.std.specs.Prelude.{◌≡◌, ◌++◌, ◌∷◌, [], OnOk};
ghost use Rattle.sheet_changes.specs.Changes.{region_lines};
ghost use Rattle.sheet_changes.specs.Inner.Compared.{lines_of};
ghost use Rattle.sheet_changes.specs.Regions.{is_added, is_named_otherwise, unlike_regions};

use byte_text::is_same;
use price_sheet::{Region, Sheet};
use std::alloc::AllocError;

fn is_named_otherwise(old: &Sheet, new: &Sheet, region: &Region) -> bool
    ensures { result ≡ is_named_otherwise old.now new.now region.now }
{
    let id = region.id().as_bytes();
    match old.region(id) {
        Some(name) => match new.region(id) {
            Some(other) => !is_same(other, name),
            None => true,
        },
        None => new.region(id).is_some(),
    }
}

fn is_added(old: &Sheet, region: &Region) -> bool
    ensures { result ≡ is_added old.now region.now }
{
    old.region(region.id().as_bytes()).is_none()
}

/// Appends the line of a region.
fn put_region(text: &mut Vec<u8>, region: &Region) -> Result<(), AllocError>
    ensures { OnOk result (text.new.items ≡ text.old.items ++ region_lines (region.now.id ∷ [])) }
{
    let Ok(()) = text.extend_from_slice(b"region ") else {
        return Err(AllocError);
    };
    let Ok(()) = text.extend_from_slice(region.id().as_bytes()) else {
        return Err(AllocError);
    };
    text.extend_from_slice(b"\n")
}

/// Appends the lines of those regions that the two sheets name otherwise.
fn put_renamed(
    text: &mut Vec<u8>,
    regions: &[Region],
    old: &Sheet,
    new: &Sheet,
) -> Result<(), AllocError>
    ensures { OnOk result (text.new.items
        ≡ text.old.items ++ lines_of (is_named_otherwise old.now new.now) regions.now) }
{
    for region in regions {
        if is_named_otherwise(old, new, region) {
            let Ok(()) = put_region(text, region) else {
                return Err(AllocError);
            };
        }
    }
    Ok(())
}

/// Appends the lines of those regions that the old sheet lacks.
fn put_added(text: &mut Vec<u8>, regions: &[Region], old: &Sheet) -> Result<(), AllocError>
    ensures { OnOk result (text.new.items
        ≡ text.old.items ++ lines_of (is_added old.now) regions.now) }
{
    for region in regions {
        if is_added(old, region) {
            let Ok(()) = put_region(text, region) else {
                return Err(AllocError);
            };
        }
    }
    Ok(())
}

/// Appends a line for each region that the two sheets do not name alike: those of the old sheet in its order, then
/// those that the new one alone has.
pub(crate) fn put_regions(text: &mut Vec<u8>, old: &Sheet, new: &Sheet) -> Result<(), AllocError>
    ensures { OnOk result (text.new.items
        ≡ text.old.items ++ region_lines (unlike_regions old.now new.now)) }
{
    let Ok(()) = put_renamed(text, old.regions(), old, new) else {
        return Err(AllocError);
    };
    put_added(text, new.regions(), old)
}
