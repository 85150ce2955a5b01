//! On which line of its section a key stands that no reader takes.

ghost use Rattle.std.specs.Prelude.{◌≡◌, ◌≤◌, [], not, ◌+◌, ◌++◌, codes, length, IfOk, OnOk, map, filter};
ghost use Rattle.std.specs.List.{flat_map, position_or_len};
ghost use Rattle.metering_model.specs.BatchReading.{lines_in};
ghost use Rattle.fault_lines.specs.TableLines.{from_first, opens_table};
ghost use Rattle.fault_lines.specs.UnknownKeys.{first_word, has_key, is_key, keys_left, shown, table_below, table_of, told_along, told_of_keys, told_unknown};
ghost use Rattle.fault_lines.specs.Inner.KeyKinds.{is_of_kind};

use crate::batches::{put_end, put_place};
use crate::text_kinds::begins_with;
use byte_text::{first_line, is_same, line_count};
use std::alloc::{AllocError, Global};
use std::marker::Model;

/// A key that no reader takes, and the name of the table in whose rows it stands: the empty text for the top.
#[derive(Drop)]
pub(crate) struct UnknownKey<'a> {
    pub(crate) table: &'a [u8],
    pub(crate) name: &'a [u8],
}

impl<'a> Model for UnknownKey<'a> {
    ghost use Rattle.fault_lines.specs.UnknownKeys as model;

    ghost Value = { model.UnknownKey };

    ghost view = { λ k. record { table = k.table.now; name = k.name.now } };
}

/// Whether it is the key of that table and name.
pub(crate) fn is_key(table: &[u8], name: &[u8], key: &UnknownKey<'_>) -> bool
    ensures { result ≡ is_key table.now name.now key.now }
{
    is_same(table, key.table) && is_same(name, key.name)
}

/// Which bytes are looked for in a line.
#[derive(Clone, Copy)]
enum ByteKind {
    /// Blanks alone.
    Blanks,
    /// Those that may stand before a key: blanks, `[`, and quotation marks.
    BeforeKey,
    /// Letters, digits, `-` and `_`.
    OfKey,
}

/// Whether a byte is of a kind.
fn is_of_kind(kind: ByteKind, byte: u8) -> bool
    ensures { result ≡ is_of_kind kind byte }
{
    match kind {
        ByteKind::Blanks => matches!(byte, b' ' | b'\t'),
        ByteKind::BeforeKey => matches!(byte, b' ' | b'\t' | b'[' | b'"' | b'\''),
        ByteKind::OfKey => matches!(byte, b'a'..=b'z' | b'A'..=b'Z' | b'0'..=b'9' | b'-' | b'_'),
    }
}

/// How many bytes of a kind stand at the front of a line.
fn count_in_front(kind: ByteKind, line: &[u8]) -> usize
    ensures within { result ≤ length line.now }
    ensures first_other { result ≡ position_or_len (λ c. not (is_of_kind kind c)) line.now }
{
    for index in 0..line.len() {
        if !is_of_kind(kind, line[index]) {
            return index;
        }
    }
    line.len()
}

/// What stands behind the bytes of a kind at the front of a line.
fn behind_those(kind: ByteKind, line: &[u8]) -> &[u8]
    ensures { result.now ≡ from_first (λ c. not (is_of_kind kind c)) line.now }
{
    &line[count_in_front(kind, line)..]
}

/// What a line begins with behind blanks, `[` and quotation marks, up to what is no letter, digit, `-` or `_`.
fn first_word(line: &[u8]) -> &[u8]
    ensures { result.now ≡ first_word line.now }
{
    let behind = behind_those(ByteKind::BeforeKey, line);
    &behind[..count_in_front(ByteKind::OfKey, behind)]
}

/// Whether a line opens a table: `[` comes first in it, behind blanks.
pub(crate) fn opens_table(line: &[u8]) -> bool
    ensures { result ≡ opens_table line.now }
{
    begins_with(behind_those(ByteKind::Blanks, line), b"[")
}

/// The table in which the first word of a line is a key, and the one that is open below the line.
#[derive(Clone, Copy)]
struct LineTables<'a> {
    at: &'a [u8],
    below: &'a [u8],
}

/// These tables of a line.
fn tables_at<'a>(table: &'a [u8], line: &'a [u8]) -> LineTables<'a>
    ensures at { result.at.now ≡ table_of table.now line.now }
    ensures below { result.below.now ≡ table_below table.now line.now }
{
    if opens_table(line) {
        LineTables {
            at: b"",
            below: first_word(line),
        }
    } else {
        LineTables {
            at: table,
            below: table,
        }
    }
}

/// A byte of a key as it is told: a question mark for one below 32, of which a line feed would break the line, and for 127.
fn shown(byte: u8) -> u8
    ensures { result ≡ shown byte }
{
    if byte < 32 || byte == 127 { b'?' } else { byte }
}

/// Appends that a key of this name is unknown.
fn put_name(told: &mut Vec<u8>, name: &[u8]) -> Result<(), AllocError>
    ensures { OnOk result (told.new.items
        ≡ told.old.items ++ (codes "unknown " ++ map shown name.now)) }
{
    let Ok(()) = told.extend_from_slice(b"unknown ") else {
        return Err(AllocError);
    };
    for byte in name {
        let Ok(()) = told.push(shown(*byte)) else {
            return Err(AllocError);
        };
    }
    Ok(())
}

/// Appends that a key on a line is unknown.
fn put_unknown(told: &mut Vec<u8>, line: u128, key: &UnknownKey<'_>) -> Result<(), AllocError>
    ensures { OnOk result (told.new.items ≡ told.old.items ++ told_unknown line key.now) }
{
    let Ok(()) = put_place(told, line) else {
        return Err(AllocError);
    };
    let Ok(()) = put_name(told, key.name) else {
        return Err(AllocError);
    };
    put_end(told)
}

/// Appends it of each of the keys.
fn put_each(told: &mut Vec<u8>, line: u128, keys: &[UnknownKey<'_>]) -> Result<(), AllocError>
    ensures { OnOk result (told.new.items
        ≡ told.old.items ++ flat_map (told_unknown line) keys.now) }
{
    for key in keys {
        let Ok(()) = put_unknown(told, line, key) else {
            return Err(AllocError);
        };
    }
    Ok(())
}

/// Appends it of those keys that are of that table and name, and leaves the others.
fn put_those(
    told: &mut Vec<u8>,
    line: u128,
    table: &[u8],
    name: &[u8],
    keys: &mut Vec<UnknownKey<'_>>,
) -> Result<(), AllocError>
    ensures told { OnOk result (told.new.items ≡ told.old.items
        ++ flat_map (told_unknown line) (filter (is_key table.now name.now) keys.old.items)) }
    ensures left { OnOk result
        (keys.new.items ≡ filter (λ k. not (is_key table.now name.now k)) keys.old.items) }
{
    let mut index = 0;
    while index < keys.len() {
        if is_key(table, name, &keys[index]) {
            let key = keys.remove(index);
            let Ok(()) = put_unknown(told, line, &key) else {
                return Err(AllocError);
            };
        } else {
            index += 1;
        }
    }
    Ok(())
}

/// Appends those of the keys that the line at an index of a section has, which opens on a line, and leaves the others. It answers the
/// table that is open below the line.
fn put_on_line<'a>(
    told: &mut Vec<u8>,
    opening: u32,
    index: usize,
    table: &'a [u8],
    line: &'a [u8],
    keys: &mut Vec<UnknownKey<'_>>,
) -> Result<&'a [u8], AllocError>
    ensures told { OnOk result (told.new.items ≡ told.old.items
        ++ flat_map (told_unknown (opening + 1 + index))
        (filter (has_key table.now line.now) keys.old.items)) }
    ensures left { OnOk result
        (keys.new.items ≡ filter (λ k. not (has_key table.now line.now k)) keys.old.items) }
    ensures below { IfOk result (λ below. below.now ≡ table_below table.now line.now) }
{
    let tables = tables_at(table, line);
    let number = u128::from(opening) + 1 + index as u128;
    let Ok(()) = put_those(told, number, tables.at, first_word(line), keys) else {
        return Err(AllocError);
    };
    Ok(tables.below)
}

/// Appends each of the keys at the first line that has it, and leaves those that no line has. The section opens on that line.
fn put_along(
    told: &mut Vec<u8>,
    opening: u32,
    text: &[u8],
    keys: &mut Vec<UnknownKey<'_>>,
) -> Result<(), AllocError>
    ensures told { OnOk result (told.new.items ≡ told.old.items
        ++ told_along (opening + 1) [] keys.old.items (lines_in text.now).lines) }
    ensures left { OnOk result
        (keys.new.items ≡ keys_left [] keys.old.items (lines_in text.now).lines) }
{
    let mut rest = text;
    let mut table: &[u8] = b"";
    for index in 0..line_count(text) {
        let Some((line, behind)) = first_line(rest) else {
            return Ok(());
        };
        let Ok(below) = put_on_line(told, opening, index, table, line, keys) else {
            return Err(AllocError);
        };
        table = below;
        rest = behind;
    }
    Ok(())
}

/// Appends the keys of a section that opens on a line: at that line those that no line of it has, then the others, for
/// which there is a text of their own.
fn put_left(
    told: &mut Vec<u8>,
    along: &mut Vec<u8>,
    opening: u32,
    text: &[u8],
    keys: &mut Vec<UnknownKey<'_>>,
) -> Result<(), AllocError>
    requires { along.old.items ≡ [] }
    ensures { OnOk result (told.new.items
        ≡ told.old.items ++ told_of_keys opening (lines_in text.now).lines keys.old.items) }
{
    let Ok(()) = put_along(along, opening, text, keys) else {
        return Err(AllocError);
    };
    let Ok(()) = put_each(told, u128::from(opening), keys) else {
        return Err(AllocError);
    };
    told.extend_from_slice(along)
}

/// Appends the keys of a section that opens on a line.
pub(crate) fn put_keys(
    alloc: Global,
    told: &mut Vec<u8>,
    opening: u32,
    text: &[u8],
    keys: &mut Vec<UnknownKey<'_>>,
) -> Result<(), AllocError>
    ensures { OnOk result (told.new.items
        ≡ told.old.items ++ told_of_keys opening (lines_in text.now).lines keys.old.items) }
{
    if keys.as_slice().is_empty() {
        return Ok(());
    }
    let mut along = Vec::new(alloc);
    put_left(told, &mut along, opening, text, keys)
}
