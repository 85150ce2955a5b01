//! Keys of a sheet or of an issuer that no reader takes.

ghost use Rattle.std.specs.Prelude.{◌≡◌, [], ◌++◌, OnOk, map};
ghost use Rattle.std.specs.List.{list_any};
ghost use Rattle.toml.specs.View.{table_view};
ghost use Rattle.metering_model.specs.BatchReading.{lines_in};
ghost use Rattle.fault_lines.specs.UnknownKeys.{is_key, is_taken, told_of_keys, told_of_section, unknown_from, unknown_from_issuer, unknown_in_sheet, unknown_on, with_key, with_rows, with_rows_under, with_table};
ghost use Rattle.fault_lines.specs.Inner.KeyKinds.{unknown_of};

use crate::key_lines::{UnknownKey, is_key, put_keys};
use crate::sections::from_line;
use byte_text::is_same;
use input_sections::{ScheduleCode, Section, Unread, read_section};
use sheet_text::{Key, KeyFault, rows_under};
use std::alloc::{AllocError, Global};
use toml::Table;

/// So many keys of a section are told.
const MOST_UNKNOWN_KEYS: usize = 100;

/// The keys that readers take: at the top of a sheet, in its rows, and of an issuer.
const SHEET_KEYS: &[Key] = &[Key::Base, Key::Price, Key::Commitment, Key::Region];

const PRICE_KEYS: &[Key] = &[
    Key::Sku,
    Key::PriceId,
    Key::From,
    Key::Description,
    Key::Service,
    Key::Category,
    Key::ConsumedUnit,
    Key::PricingUnit,
    Key::Per,
    Key::List,
    Key::Contracted,
];

const COMMITMENT_KEYS: &[Key] = &[
    Key::Id,
    Key::Sku,
    Key::Buy,
    Key::Category,
    Key::Kind,
    Key::Rate,
];

const REGION_KEYS: &[Key] = &[Key::Id, Key::Name];

const ISSUER_KEYS: &[Key] = &[
    Key::Provider,
    Key::Publisher,
    Key::Issuer,
    Key::AccountId,
    Key::AccountName,
    Key::Currency,
    Key::OtherService,
];

/// Whose keys are looked for.
#[derive(Clone, Copy)]
enum KeyOwner {
    Sheet,
    Issuer,
}

/// Whether a reader takes a key of this name.
fn is_taken(taken: &[Key], name: &[u8]) -> bool
    ensures { result ≡ is_taken taken.now name.now }
{
    for key in taken {
        if is_same(name, key.name().as_bytes()) {
            return true;
        }
    }
    false
}

/// Whether the key of that table and name is one of those.
fn is_found(table: &[u8], name: &[u8], found: &[UnknownKey<'_>]) -> bool
    ensures { result ≡ list_any (is_key table.now name.now) found.now }
{
    for key in found {
        if is_key(table, name, key) {
            return true;
        }
    }
    false
}

/// Adds a key of a table where no reader takes it, it is not there, and there is room.
fn add_key<'a>(
    taken: &[Key],
    table: &'a [u8],
    found: &mut Vec<UnknownKey<'a>>,
    name: &'a [u8],
) -> Result<(), AllocError>
    ensures { OnOk result (found.new.items
        ≡ with_key taken.now table.now found.old.items name.now) }
{
    if is_taken(taken, name) || is_found(table, name, found) || found.len() >= MOST_UNKNOWN_KEYS {
        return Ok(());
    }
    let Ok(()) = found.push(UnknownKey { table, name }) else {
        return Err(AllocError);
    };
    Ok(())
}

/// Adds those of the keys of a table.
#[tactic(auto, unfolding(crate::specs::UnknownKeys::with_table))]
fn add_table<'a>(
    taken: &[Key],
    table: &'a [u8],
    found: &mut Vec<UnknownKey<'a>>,
    members: &'a Table,
) -> Result<(), AllocError>
    ensures { OnOk result (found.new.items
        ≡ with_table taken.now table.now found.old.items (table_view members.now)) }
{
    for (key, _) in members.iter() {
        let Ok(()) = add_key(taken, table, found, key.as_bytes()) else {
            return Err(AllocError);
        };
    }
    Ok(())
}

/// Adds those of the keys of some rows.
#[tactic(auto, unfolding(crate::specs::UnknownKeys::with_rows))]
fn add_rows<'a>(
    taken: &[Key],
    table: &'a [u8],
    found: &mut Vec<UnknownKey<'a>>,
    rows: &[&'a Table],
) -> Result<(), AllocError>
    ensures { OnOk result (found.new.items ≡ with_rows taken.now table.now found.old.items
        (map (λ t. table_view t.now) rows.now)) }
{
    for row in rows {
        let Ok(()) = add_table(taken, table, found, row) else {
            return Err(AllocError);
        };
    }
    Ok(())
}

/// Adds those of the keys of the rows under a key: none where there are no rows.
#[tactic(auto, unfolding(crate::specs::UnknownKeys::with_rows))]
fn add_rows_under<'a>(
    alloc: Global,
    key: Key,
    taken: &[Key],
    found: &mut Vec<UnknownKey<'a>>,
    members: &'a Table,
) -> Result<(), AllocError>
    ensures { OnOk result (found.new.items
        ≡ with_rows_under key taken.now found.old.items (table_view members.now)) }
{
    match rows_under(alloc, members, key) {
        Ok(rows) => add_rows(taken, key.name().as_bytes(), found, &rows),
        Err(KeyFault::OutOfMemory) => Err(AllocError),
        Err(_) => Ok(()),
    }
}

/// Adds the keys of a sheet that no reader takes, at the top and then in the rows.
#[tactic(auto, unfolding(crate::specs::UnknownKeys::unknown_in_sheet))]
fn add_of_sheet<'a>(
    alloc: Global,
    found: &mut Vec<UnknownKey<'a>>,
    members: &'a Table,
) -> Result<(), AllocError>
    requires { found.old.items ≡ [] }
    ensures { OnOk result (found.new.items ≡ unknown_in_sheet (table_view members.now)) }
{
    let Ok(()) = add_table(SHEET_KEYS, b"", found, members) else {
        return Err(AllocError);
    };
    let Ok(()) = add_rows_under(alloc, Key::Price, PRICE_KEYS, found, members) else {
        return Err(AllocError);
    };
    let Ok(()) = add_rows_under(alloc, Key::Commitment, COMMITMENT_KEYS, found, members) else {
        return Err(AllocError);
    };
    add_rows_under(alloc, Key::Region, REGION_KEYS, found, members)
}

/// Adds the keys of a sheet or of an issuer that no reader takes.
#[tactic(auto, unfolding(crate::specs::UnknownKeys::unknown_in_issuer))]
fn add_of<'a>(
    alloc: Global,
    owner: KeyOwner,
    found: &mut Vec<UnknownKey<'a>>,
    members: &'a Table,
) -> Result<(), AllocError>
    requires { found.old.items ≡ [] }
    ensures { OnOk result (found.new.items ≡ unknown_of owner (table_view members.now)) }
{
    match owner {
        KeyOwner::Sheet => add_of_sheet(alloc, found, members),
        KeyOwner::Issuer => add_table(ISSUER_KEYS, b"", found, members),
    }
}

/// Appends the unknown keys of the table of a section that opens on a line.
fn put_of_table(
    alloc: Global,
    told: &mut Vec<u8>,
    owner: KeyOwner,
    opening: u32,
    section: &[u8],
    table: &Table,
) -> Result<(), AllocError>
    ensures { OnOk result (told.new.items ≡ told.old.items
        ++ told_of_keys opening (lines_in section.now).lines
        (unknown_of owner (table_view table.now))) }
{
    let mut keys = Vec::new(alloc);
    let Ok(()) = add_of(alloc, owner, &mut keys, table) else {
        return Err(AllocError);
    };
    put_keys(alloc, told, opening, section, &mut keys)
}

/// Appends the unknown keys of the text of a section that opens on a line.
#[tactic(auto, unfolding(crate::specs::UnknownKeys::told_of_section))]
fn put_of(
    alloc: Global,
    told: &mut Vec<u8>,
    owner: KeyOwner,
    opening: u32,
    section: &[u8],
) -> Result<(), AllocError>
    ensures { OnOk result (told.new.items
        ≡ told.old.items ++ told_of_section (unknown_of owner) opening section.now) }
{
    match toml::table_from_slice(alloc, section) {
        Ok(table) => put_of_table(alloc, told, owner, opening, section, &table),
        Err(error) => {
            if error.is_memory() {
                Err(AllocError)
            } else {
                Ok(())
            }
        }
    }
}

/// Appends the unknown keys of the section of an issuer, where what is left begins with one.
#[tactic(auto, unfolding(crate::specs::UnknownKeys::unknown_from_issuer))]
fn put_from_issuer(alloc: Global, told: &mut Vec<u8>, unread: &Unread<'_>) -> Result<(), AllocError>
    ensures { OnOk result (told.new.items ≡ told.old.items ++ unknown_from_issuer unread.now) }
{
    match read_section(unread, ScheduleCode::Issuer, b"issuer ", 100) {
        Ok(section) => put_of(alloc, told, KeyOwner::Issuer, unread.line(), section.text),
        Err(_) => Ok(()),
    }
}

/// Appends the unknown keys of the section of a sheet that opens on a line, and of the section of an issuer behind it.
fn put_from_sheet(
    alloc: Global,
    told: &mut Vec<u8>,
    opening: u32,
    section: &Section<'_>,
) -> Result<(), AllocError>
    ensures { OnOk result (told.new.items ≡ told.old.items
        ++ (told_of_section unknown_in_sheet opening section.now.text.now
        ++ unknown_from_issuer section.now.rest)) }
{
    let Ok(()) = put_of(alloc, told, KeyOwner::Sheet, opening, section.text) else {
        return Err(AllocError);
    };
    put_from_issuer(alloc, told, &section.rest)
}

/// Appends a line for each key that no reader takes, at most 100 of a section, of the sections of a sheet and of an issuer that
/// what is left begins with, each where it is there: `line 12: unknown regions`. The line is that of the whole text.
///
/// It is for sections that their readers have taken. The text of each is parsed once more. An error is an allocation failure.
#[tactic(auto, unfolding(crate::specs::UnknownKeys::unknown_from))]
pub fn put_unknown_keys(
    alloc: Global,
    told: &mut Vec<u8>,
    unread: &Unread<'_>,
) -> Result<(), AllocError>
    ensures { OnOk result (told.new.items ≡ told.old.items ++ unknown_from unread.now) }
{
    match read_section(unread, ScheduleCode::Sheet, b"sheet ", 200_000) {
        Ok(section) => put_from_sheet(alloc, told, unread.line(), &section),
        Err(_) => put_from_issuer(alloc, told, unread),
    }
}

/// Appends the keys that no reader takes, of the sections of a sheet and of an issuer that stand from a line on, counted from 1.
pub fn put_unknown_on(
    alloc: Global,
    warned: &mut Vec<u8>,
    text: &[u8],
    line: u32,
) -> Result<(), AllocError>
    ensures { OnOk result (warned.new.items ≡ warned.old.items ++ unknown_on line text.now) }
{
    match from_line(text, line) {
        Some(unread) => put_unknown_keys(alloc, warned, &unread),
        None => Ok(()),
    }
}
