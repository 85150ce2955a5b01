//! Where a section that is no TOML stops being it.

ghost use Rattle.std.specs.Prelude.{◌≡◌, ◌+◌, ◌++◌, IfOk, OnOk};
ghost use Rattle.metering_model.specs.BatchReading.{lines_in};
ghost use Rattle.fault_lines.specs.TomlStops.{is_toml, most_tried, stop_among, stop_in, stop_words, toml_stop};

use crate::key_lines::opens_table;
use byte_text::{first_line, line_count, lines_length, put_numbered};
use std::alloc::{AllocError, Global};

/// So many lines of a table are tried, of so many bytes: each is read once for each line below it, so that a long table would
/// take long.
const MOST_TRIED: u32 = 99;

const MOST_TRIED_BYTES: usize = 65_536;

/// Whether a text is TOML by itself.
fn is_toml(alloc: Global, text: &[u8]) -> Result<bool, AllocError>
    ensures { IfOk result (λ is. is ≡ is_toml text.now) }
{
    match toml::table_from_slice(alloc, text) {
        Ok(_) => return Ok(true),
        Err(error) => {
            if error.is_memory() {
                return Err(AllocError);
            }
        }
    }
    Ok(false)
}

/// The first of a table's lines, counted from 0, up to which it is no TOML, among the first that are tried.
fn stop_among(alloc: Global, table: &[u8]) -> Result<Option<u32>, AllocError>
    ensures { IfOk result
        (λ stop. stop ≡ stop_among (lines_in table.now).lines 0 most_tried) }
{
    for index in 0..MOST_TRIED {
        let Some(length) = lines_length(table, index + 1) else {
            return Ok(None);
        };
        if length > MOST_TRIED_BYTES {
            return Ok(None);
        }
        if !is_toml(alloc, &table[..length])? {
            return Ok(Some(index));
        }
    }
    Ok(None)
}

/// The number of a line of a table, of which the first is that of an index below a line, and this of an index in it.
fn line_at(opening: u32, first: usize, index: u32) -> u128
    ensures { result ≡ opening + 1 + first + index }
{
    u128::from(opening) + 1 + first as u128 + u128::from(index)
}

/// The number of the line at which a table that is no TOML stops being it, which begins at an index below a line.
fn stop_in(
    alloc: Global,
    table: &[u8],
    opening: u32,
    first: usize,
) -> Result<Option<u128>, AllocError>
    ensures { IfOk result (λ stop. stop ≡ stop_in (opening + 1 + first) table.now) }
{
    match stop_among(alloc, table)? {
        Some(index) => Ok(Some(line_at(opening, first, index))),
        None => Ok(None),
    }
}

/// The same of the first table that is none, in the text of a section that opens on a line. Each table is read by itself.
fn toml_stop(alloc: Global, text: &[u8], opening: u32) -> Result<Option<u128>, AllocError>
    ensures { IfOk result (λ stop. stop ≡ toml_stop opening text.now) }
{
    // What stands from the open table on, what of it was not passed, and the index of the table's first line.
    let mut table = text;
    let mut left = text;
    let mut first = 0;
    for index in 0..line_count(text) {
        let Some((line, behind)) = first_line(left) else {
            break;
        };
        if opens_table(line) {
            let passed = &table[..table.len() - left.len()];
            if !is_toml(alloc, passed)? {
                return stop_in(alloc, passed, opening, first);
            }
            table = left;
            first = index;
        }
        left = behind;
    }
    let passed = &table[..table.len() - left.len()];
    if is_toml(alloc, passed)? {
        return Ok(None);
    }
    stop_in(alloc, passed, opening, first)
}

/// Appends where the text of a section that opens on a line stops being TOML, if a table tells that.
pub(crate) fn put_stop(
    alloc: Global,
    told: &mut Vec<u8>,
    text: &[u8],
    opening: u32,
) -> Result<(), AllocError>
    ensures { OnOk result (told.new.items ≡ told.old.items ++ stop_words opening text.now) }
{
    match toml_stop(alloc, text, opening)? {
        Some(line) => put_numbered(told, b" line ", line),
        None => Ok(()),
    }
}
