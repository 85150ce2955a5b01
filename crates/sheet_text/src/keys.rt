//! What stands under the keys of a TOML table.

ghost use Rattle.std.specs.Prelude.{◌≡◌, ◌≢◌, ◌≤◌, IsTrue, IfOk, IfErr, string_bytes, map, length, ok_or};
ghost use Rattle.std.specs.List.{list_all};
ghost use Rattle.metering_model.specs.Limits.{most_sheet_rows, most_units};
ghost use Rattle.toml.specs.View.{view, table_view, array_view};
ghost use Rattle.metering_model.specs.Dates.{IsBaseMonth};
ghost use Rattle.metering_model.specs.SheetRules.{is_printable, is_label};
ghost use Rattle.sheet_text.specs.Keys.{value_under, text_under, label_under, day_under, base_under, price_under, per_under, service_category_in, service_category_under, commitment_category_in, commitment_category_under, tables_in, rows_in, rows_under};
ghost use Rattle.sheet_text.specs.Gives.{Gives};

use crate::names::Key;
use byte_text::is_same;
use fx_money::Price;
use metering_model::{CommitmentCategory, ServiceCategory};
use std::alloc::{AllocError, Global};
use toml::value::Array;
use toml::{Table, Value};
use utc_calendar::{Day, Month};

/// The rows that a table of a sheet may have.
const MOST_ROWS: usize = 10_000;

const MOST_UNITS: i64 = 1_000_000_000;

/// What is wrong under a key.
#[derive(Clone, Copy, Drop)]
pub enum KeyFault {
    Missing(Key),
    BadValue(Key),
    OutOfMemory,
}

impl From<AllocError> for KeyFault {
    ghost use Rattle.std.specs.Prelude.{◌≡◌};
    ghost use Rattle.sheet_text.specs.declared.keys.KeyFault.TheVariants.{OutOfMemory};

    ghost from_gives = { λ _ e. e ≡ OutOfMemory };

    fn from(_error: AllocError) -> KeyFault {
        KeyFault::OutOfMemory
    }
}

/// What stands under a key.
#[tactic(auto, unfolding(crate::specs::Keys::value_under))]
pub(crate) fn value_under<'a>(table: &'a Table, key: Key) -> Result<&'a Value, KeyFault>
    ensures gives { Gives (λ v. view v.now) result (value_under key (table_view table.now)) }
    ensures want { IfErr result (λ fault. fault ≢ KeyFault.OutOfMemory) }
{
    match table.get(key.name()) {
        Some(value) => Ok(value),
        None => Err(KeyFault::Missing(key)),
    }
}

/// The string under a key.
#[tactic(auto, unfolding(crate::specs::Keys::text_under))]
pub(crate) fn text_under<'a>(table: &'a Table, key: Key) -> Result<&'a str, KeyFault>
    ensures gives { Gives (λ t. t.now) result (text_under key (table_view table.now)) }
    ensures want { IfErr result (λ fault. fault ≢ KeyFault.OutOfMemory) }
{
    let value = value_under(table, key)?;
    value.as_str().ok_or(KeyFault::BadValue(key))
}

/// Whether no byte of it is a control character of ASCII.
fn is_printable(text: &[u8]) -> bool
    ensures { result ≡ list_all is_printable text.now }
{
    for byte in text {
        if *byte < 32 || *byte == 127 {
            return false;
        }
    }
    true
}

/// Whether it is one or more characters, none of them a control character of ASCII.
fn is_label(text: &[u8]) -> bool
    ensures { result ≡ is_label text.now }
{
    !text.is_empty() && is_printable(text)
}

/// The label under a key.
#[tactic(auto, unfolding(crate::specs::Keys::label_under))]
pub(crate) fn label_under(alloc: Global, table: &Table, key: Key) -> Result<String, KeyFault>
    ensures gives { Gives (λ t. string_bytes t) result (label_under key (table_view table.now)) }
    ensures label { IfOk result (λ t. IsTrue (is_label (string_bytes t))) }
{
    let text = text_under(table, key)?;
    if !is_label(text.as_bytes()) {
        return Err(KeyFault::BadValue(key));
    }
    Ok(String::from_str(alloc, text)?)
}

/// The day under a key.
#[tactic(auto, unfolding(crate::specs::Keys::day_under))]
pub(crate) fn day_under(table: &Table, key: Key) -> Result<Day, KeyFault>
    ensures { Gives (λ d. d) result (day_under key (table_view table.now)) }
{
    let text = text_under(table, key)?;
    Day::read(text.as_bytes()).ok_or(KeyFault::BadValue(key))
}

/// The base month under a key, from 2000-01 to 2100-12, or what is wrong there. Never OutOfMemory.
#[tactic(auto, unfolding(crate::specs::Keys::base_under))]
pub fn base_under(table: &Table, key: Key) -> Result<Month, KeyFault>
    ensures gives { Gives (λ m. m) result (base_under key (table_view table.now)) }
    ensures want { IfErr result (λ fault. fault ≢ KeyFault.OutOfMemory) }
    ensures base { IfOk result IsBaseMonth }
{
    let text = text_under(table, key)?;
    match Month::read(text.as_bytes()) {
        Some(month) if month.is_base() => Ok(month),
        _ => Err(KeyFault::BadValue(key)),
    }
}

/// The price under a key.
#[tactic(auto, unfolding(crate::specs::Keys::price_under))]
pub(crate) fn price_under(table: &Table, key: Key) -> Result<Price, KeyFault>
    ensures { Gives (λ p. p) result (price_under key (table_view table.now)) }
{
    let text = text_under(table, key)?;
    match Price::read(text.as_bytes()) {
        Ok(price) => Ok(price),
        Err(_) => Err(KeyFault::BadValue(key)),
    }
}

/// How many metered units make one priced unit.
#[tactic(auto, unfolding(crate::specs::Keys::per_under))]
pub(crate) fn per_under(table: &Table, key: Key) -> Result<u32, KeyFault>
    ensures gives { Gives (λ n. n) result (per_under key (table_view table.now)) }
    ensures range { IfOk result (λ n. (1 ≤ n) × (n ≤ most_units)) }
{
    let value = value_under(table, key)?;
    let Some(number) = value.as_integer() else {
        return Err(KeyFault::BadValue(key));
    };
    if number < 1 || MOST_UNITS < number {
        return Err(KeyFault::BadValue(key));
    }
    Ok(number as u32)
}

/// The category of which it is the text.
fn service_category_in(text: &[u8]) -> Option<ServiceCategory>
    ensures { result ≡ service_category_in text.now }
{
    if is_same(text, b"Compute") {
        Some(ServiceCategory::Compute)
    } else if is_same(text, b"Storage") {
        Some(ServiceCategory::Storage)
    } else if is_same(text, b"Networking") {
        Some(ServiceCategory::Networking)
    } else if is_same(text, b"Databases") {
        Some(ServiceCategory::Databases)
    } else if is_same(text, b"Other") {
        Some(ServiceCategory::Other)
    } else {
        None
    }
}

/// The service category under a key.
#[tactic(auto, unfolding(crate::specs::Keys::service_category_under))]
pub(crate) fn service_category_under(table: &Table, key: Key) -> Result<ServiceCategory, KeyFault>
    ensures { Gives (λ c. c) result (service_category_under key (table_view table.now)) }
{
    let text = text_under(table, key)?;
    service_category_in(text.as_bytes()).ok_or(KeyFault::BadValue(key))
}

/// The category of which it is the text.
fn commitment_category_in(text: &[u8]) -> Option<CommitmentCategory>
    ensures { result ≡ commitment_category_in text.now }
{
    if is_same(text, b"Spend") {
        Some(CommitmentCategory::Spend)
    } else if is_same(text, b"Usage") {
        Some(CommitmentCategory::Usage)
    } else {
        None
    }
}

/// The category of a commitment under a key.
#[tactic(auto, unfolding(crate::specs::Keys::commitment_category_under))]
pub(crate) fn commitment_category_under(
    table: &Table,
    key: Key,
) -> Result<CommitmentCategory, KeyFault>
    ensures { Gives (λ c. c) result (commitment_category_under key (table_view table.now)) }
{
    let text = text_under(table, key)?;
    commitment_category_in(text.as_bytes()).ok_or(KeyFault::BadValue(key))
}

/// The tables of an array that has nothing but tables.
#[tactic(auto, using(crate::proofs::Tables::one_more_table))]
fn tables_in<'a>(alloc: Global, key: Key, values: &'a Array) -> Result<Vec<&'a Table>, KeyFault>
    ensures { Gives (λ rows. map (λ t. table_view t.now) rows.items) result
        (ok_or (tables_in (array_view values.now)) (KeyFault.BadValue key)) }
{
    let mut tables = Vec::new(alloc);
    for value in values {
        let Some(table) = value.as_table() else {
            return Err(KeyFault::BadValue(key));
        };
        if tables.push(table).is_err() {
            return Err(KeyFault::OutOfMemory);
        }
    }
    Ok(tables)
}

/// The tables of an array of at most 10,000 tables.
#[tactic(auto, unfolding(crate::specs::Keys::rows_in))]
fn rows_in<'a>(alloc: Global, key: Key, value: &'a Value) -> Result<Vec<&'a Table>, KeyFault>
    ensures gives { Gives (λ rows. map (λ t. table_view t.now) rows.items) result
        (rows_in key (view value.now)) }
    ensures few { IfOk result (λ rows. length rows.items ≤ most_sheet_rows) }
{
    let Some(values) = value.as_array() else {
        return Err(KeyFault::BadValue(key));
    };
    let tables = tables_in(alloc, key, values)?;
    if MOST_ROWS < tables.len() {
        return Err(KeyFault::BadValue(key));
    }
    Ok(tables)
}

/// The rows under a key, in order, at most 10,000; none where the key is absent. An error is what is wrong under the
/// key, or OutOfMemory.
#[tactic(auto, unfolding(crate::specs::Keys::rows_under))]
pub fn rows_under<'a>(alloc: Global, table: &'a Table, key: Key) -> Result<Vec<&'a Table>, KeyFault>
    ensures gives { Gives (λ rows. map (λ t. table_view t.now) rows.items) result
        (rows_under key (table_view table.now)) }
    ensures few { IfOk result (λ rows. length rows.items ≤ most_sheet_rows) }
{
    match table.get(key.name()) {
        Some(value) => rows_in(alloc, key, value),
        None => Ok(Vec::new(alloc)),
    }
}
