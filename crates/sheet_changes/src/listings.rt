//! A line for each field in which two sheets differ.

ghost use Rattle.std.specs.Prelude.{◌≡◌, ◌++◌, ◌∷◌, [], ℕ, List, codes, map, OnOk};
ghost use Rattle.std.specs.Option.{option_copied};
ghost use Rattle.std.specs.Cmp.Lexicographic.{slice_cmp};
ghost use Rattle.std.specs.Ordering.{nat_cmp};
ghost use Rattle.std.specs.List.{flat_map};
ghost use Rattle.metering_model.specs.Dates.{IsDayText};
ghost use Rattle.sheet_changes.specs.FieldChanges.{AreSorted, ListsFields, ListsPrices, PriceDay, changed, commitment_ids, commitment_lines, part, price_day_cmp, price_days, price_lines, region_ids, region_line};
ghost use Rattle.sheet_changes.specs.Inner.Listed.{day_of_pair};

use crate::days::day_text;
use crate::fields::{put_changed, put_keys};
use crate::orders::{put_commitment_ids, put_price_days, put_region_ids};
use price_sheet::{Key, Sheet};
use std::alloc::{AllocError, Global};
use utc_calendar::Day;

const PRICE_KEYS: [Key; 9] = [
    Key::PriceId,
    Key::Description,
    Key::Service,
    Key::Category,
    Key::ConsumedUnit,
    Key::PricingUnit,
    Key::Per,
    Key::List,
    Key::Contracted,
];

const COMMITMENT_KEYS: [Key; 5] = [Key::Sku, Key::Buy, Key::Category, Key::Kind, Key::Rate];

/// Appends what the two sheets have in force of a SKU on a day, where that differs.
fn put_price(
    alloc: Global,
    text: &mut Vec<u8>,
    old: &Sheet,
    new: &Sheet,
    at: &(&[u8], Day),
) -> Result<(), AllocError>
    ensures { OnOk result ((date : List ℕ) × IsDayText date at.now.1
        × (text.new.items ≡ text.old.items
        ++ price_lines old.now new.now (day_of_pair at.now) date)) }
{
    let (sku, day) = *at;
    let date = day_text(day);
    put_keys(
        alloc,
        text,
        &[b"price", sku, &date],
        &PRICE_KEYS,
        old.price(sku, day),
        new.price(sku, day),
    )
}

/// Appends the prices that differ, one SKU and day after another.
fn put_prices(
    alloc: Global,
    text: &mut Vec<u8>,
    old: &Sheet,
    new: &Sheet,
    days: &[(&[u8], Day)],
) -> Result<(), AllocError>
    ensures { OnOk result ((prices : List ℕ)
        × ListsPrices old.now new.now (map day_of_pair days.now) prices
        × (text.new.items ≡ text.old.items ++ prices)) }
{
    for at in days {
        let Ok(()) = put_price(alloc, text, old, new, at) else {
            return Err(AllocError);
        };
    }
    Ok(())
}

/// Appends what the two sheets have under the id of a commitment, where that differs.
fn put_commitment(
    alloc: Global,
    text: &mut Vec<u8>,
    old: &Sheet,
    new: &Sheet,
    id: &[u8],
) -> Result<(), AllocError>
    ensures { OnOk result (text.new.items
        ≡ text.old.items ++ commitment_lines old.now new.now id.now) }
{
    put_keys(
        alloc,
        text,
        &[b"commitment", id],
        &COMMITMENT_KEYS,
        old.commitment(id),
        new.commitment(id),
    )
}

/// Appends the fields that differ of the commitments with these ids.
fn put_commitments(
    alloc: Global,
    text: &mut Vec<u8>,
    old: &Sheet,
    new: &Sheet,
    ids: &[&[u8]],
) -> Result<(), AllocError>
    ensures { OnOk result (text.new.items ≡ text.old.items
        ++ flat_map (commitment_lines old.now new.now) (map (λ id. id.now) ids.now)) }
{
    for id in ids {
        let Ok(()) = put_commitment(alloc, text, old, new, id) else {
            return Err(AllocError);
        };
    }
    Ok(())
}

/// Appends the names that two sheets give a region, where these differ.
fn put_name(
    text: &mut Vec<u8>,
    id: &[u8],
    old: Option<&[u8]>,
    new: Option<&[u8]>,
) -> Result<(), AllocError>
    ensures { OnOk result (text.new.items ≡ text.old.items
        ++ changed (codes "region" ∷ id.now ∷ [])
        (part (λ name. name) (option_copied old.entry))
        (part (λ name. name) (option_copied new.entry))) }
{
    put_changed(
        text,
        &[b"region"],
        id,
        old.unwrap_or(b""),
        new.unwrap_or(b""),
    )
}

/// Appends the names that differ of the regions with these ids.
fn put_names(text: &mut Vec<u8>, old: &Sheet, new: &Sheet, ids: &[&[u8]]) -> Result<(), AllocError>
    ensures { OnOk result (text.new.items ≡ text.old.items
        ++ flat_map (region_line old.now new.now) (map (λ id. id.now) ids.now)) }
{
    for id in ids {
        let Ok(()) = put_name(text, id, old.region(id), new.region(id)) else {
            return Err(AllocError);
        };
    }
    Ok(())
}

/// Appends the prices that differ.
fn put_all_prices(
    alloc: Global,
    text: &mut Vec<u8>,
    old: &Sheet,
    new: &Sheet,
) -> Result<(), AllocError>
    ensures { OnOk result ((listed : List PriceDay) × (prices : List ℕ)
        × AreSorted price_day_cmp (price_days old.now new.now) listed
        × ListsPrices old.now new.now listed prices
        × (text.new.items ≡ text.old.items ++ prices)) }
{
    let mut days = Vec::new(alloc);
    match put_price_days(&mut days, old, new) {
        Ok(()) => put_prices(alloc, text, old, new, &days),
        Err(error) => Err(error),
    }
}

/// Appends the commitments that differ.
fn put_all_commitments(
    alloc: Global,
    text: &mut Vec<u8>,
    old: &Sheet,
    new: &Sheet,
) -> Result<(), AllocError>
    ensures { OnOk result ((ids : List (List ℕ))
        × AreSorted (slice_cmp nat_cmp) (commitment_ids old.now new.now) ids
        × (text.new.items ≡ text.old.items ++ flat_map (commitment_lines old.now new.now) ids)) }
{
    let mut ids = Vec::new(alloc);
    match put_commitment_ids(&mut ids, old, new) {
        Ok(()) => put_commitments(alloc, text, old, new, &ids),
        Err(error) => Err(error),
    }
}

/// Appends the regions that have other names.
fn put_all_names(
    alloc: Global,
    text: &mut Vec<u8>,
    old: &Sheet,
    new: &Sheet,
) -> Result<(), AllocError>
    ensures { OnOk result ((ids : List (List ℕ))
        × AreSorted (slice_cmp nat_cmp) (region_ids old.now new.now) ids
        × (text.new.items ≡ text.old.items ++ flat_map (region_line old.now new.now) ids)) }
{
    let mut ids = Vec::new(alloc);
    match put_region_ids(&mut ids, old, new) {
        Ok(()) => put_names(text, old, new, &ids),
        Err(error) => Err(error),
    }
}

/// Appends a line for each field in which the two sheets differ.
pub(crate) fn put_fields(
    alloc: Global,
    text: &mut Vec<u8>,
    old: &Sheet,
    new: &Sheet,
) -> Result<(), AllocError>
    ensures { OnOk result ((fields : List ℕ) × ListsFields old.now new.now fields
        × (text.new.items ≡ text.old.items ++ fields)) }
{
    let Ok(()) = put_all_prices(alloc, text, old, new) else {
        return Err(AllocError);
    };
    let Ok(()) = put_all_commitments(alloc, text, old, new) else {
        return Err(AllocError);
    };
    put_all_names(alloc, text, old, new)
}
