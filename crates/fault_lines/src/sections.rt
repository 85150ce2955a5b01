//! The fault of a section, and what its reader says of it.

ghost use Rattle.std.specs.Prelude.{◌≡◌, ◌≢◌, ◌≤◌, ◌++◌, codes, None, Some, Ok, Err, MatchOption, OnOk};
ghost use Rattle.price_sheet.specs.SheetReading.{sheet_of_text};
ghost use Rattle.sheet_text.specs.IssuerReading.{issuer_of_text};
ghost use Rattle.fault_lines.specs.Told.{from_line, reason, said_by, said_of_fault, section_on};
ghost use Rattle.fault_lines.specs.TomlStops.{issuer_words, sheet_words};

use crate::batches::{put_end, put_place};
use crate::text_kinds::{kind_words, opening_words};
use crate::toml_stops::put_stop;
use answer_words::{put_issuer_fault, put_sheet_fault, section_code_word};
use input_sections::{ScheduleCode, ScheduleFault, Unread, read_section};
use price_sheet::Sheet;
use sheet_text::{Issuer, IssuerFault, SheetFault};
use std::alloc::{AllocError, Global};

/// What is left of a text from a line on, counted from 1; None where the text has fewer lines, or is too long.
pub(crate) fn from_line<'a>(text: &'a [u8], line: u32) -> Option<Unread<'a>>
    ensures { (code : ScheduleCode) → MatchOption result
        ((fault : ScheduleFault) × (from_line code line text.now ≡ Err fault))
        (λ unread. from_line code line text.now ≡ Ok unread) }
{
    match Unread::whole(text) {
        Ok(whole) => whole.behind_lines(line.saturating_sub(1)),
        Err(_) => None,
    }
}

/// The text of the section that opens on a line, counted from 1. No memory is taken.
fn section_on<'a>(
    text: &'a [u8],
    code: ScheduleCode,
    word: &[u8],
    most: u32,
    line: u32,
) -> Option<&'a [u8]>
    requires { most ≤ 1_000_000 }
    ensures { MatchOption result (section_on code word.now most line text.now ≡ None)
        (λ found. section_on code word.now most line text.now ≡ Some found.now) }
{
    let Some(unread) = from_line(text, line) else {
        return None;
    };
    match read_section(&unread, code, word, most) {
        Ok(section) => Some(section.text),
        Err(_) => None,
    }
}

/// Appends why the text of a section that opens on a line is no sheet, behind a space.
fn put_sheet_words(
    alloc: Global,
    told: &mut Vec<u8>,
    text: &str,
    line: u32,
    fault: SheetFault,
) -> Result<(), AllocError>
    ensures { OnOk result (told.new.items
        ≡ told.old.items ++ (codes " " ++ sheet_words line text.now fault)) }
{
    let Ok(()) = told.extend_from_slice(b" ") else {
        return Err(AllocError);
    };
    let Ok(()) = put_sheet_fault(told, fault) else {
        return Err(AllocError);
    };
    match fault {
        SheetFault::NotToml => put_stop(alloc, told, text.as_bytes(), line),
        _ => Ok(()),
    }
}

/// Appends what the reader of a sheet says of the text of a section that opens on a line.
fn put_sheet_answer(
    alloc: Global,
    told: &mut Vec<u8>,
    text: &str,
    line: u32,
) -> Result<(), AllocError>
    ensures { OnOk result (told.new.items
        ≡ told.old.items ++ said_by (sheet_words line text.now) (sheet_of_text text.now)) }
{
    match Sheet::read(alloc, text) {
        Ok(sheet) => {
            // Dropped by a call for the prover's time alone, as an issuer below (docs/DECISIONS.md).
            sheet.release();
            Ok(())
        }
        Err(SheetFault::OutOfMemory) => Err(AllocError),
        Err(fault) => put_sheet_words(alloc, told, text, line, fault),
    }
}

/// Appends what is wrong with the section of a sheet on a line, or what that line is where it opens none.
fn put_sheet_reason(
    alloc: Global,
    told: &mut Vec<u8>,
    text: &[u8],
    line: u32,
) -> Result<(), AllocError>
    ensures { OnOk result (told.new.items
        ≡ told.old.items ++ reason text.now ScheduleCode.Sheet line) }
{
    let Some(section) = section_on(text, ScheduleCode::Sheet, b"sheet ", 200_000, line) else {
        return told.extend_from_slice(opening_words(text, line));
    };
    match str::from_utf8(section) {
        Ok(toml) => put_sheet_answer(alloc, told, toml, line),
        Err(_) => told.extend_from_slice(b" not UTF-8"),
    }
}

/// Appends why the text of a section that opens on a line is no issuer, behind a space.
fn put_issuer_words(
    alloc: Global,
    told: &mut Vec<u8>,
    text: &str,
    line: u32,
    fault: IssuerFault,
) -> Result<(), AllocError>
    ensures { OnOk result (told.new.items
        ≡ told.old.items ++ (codes " " ++ issuer_words line text.now fault)) }
{
    let Ok(()) = told.extend_from_slice(b" ") else {
        return Err(AllocError);
    };
    let Ok(()) = put_issuer_fault(told, fault) else {
        return Err(AllocError);
    };
    match fault {
        IssuerFault::NotToml => put_stop(alloc, told, text.as_bytes(), line),
        _ => Ok(()),
    }
}

/// Appends what the reader of an issuer says of the text of a section that opens on a line.
fn put_issuer_answer(
    alloc: Global,
    told: &mut Vec<u8>,
    text: &str,
    line: u32,
) -> Result<(), AllocError>
    ensures { OnOk result (told.new.items
        ≡ told.old.items ++ said_by (issuer_words line text.now) (issuer_of_text text.now)) }
{
    match Issuer::read(alloc, text) {
        Ok(issuer) => {
            issuer.release();
            Ok(())
        }
        Err(IssuerFault::OutOfMemory) => Err(AllocError),
        Err(fault) => put_issuer_words(alloc, told, text, line, fault),
    }
}

/// Appends what is wrong with the section of an issuer on a line, or what that line is where it opens none.
fn put_issuer_reason(
    alloc: Global,
    told: &mut Vec<u8>,
    text: &[u8],
    line: u32,
) -> Result<(), AllocError>
    ensures { OnOk result (told.new.items
        ≡ told.old.items ++ reason text.now ScheduleCode.Issuer line) }
{
    let Some(section) = section_on(text, ScheduleCode::Issuer, b"issuer ", 100, line) else {
        return told.extend_from_slice(opening_words(text, line));
    };
    match str::from_utf8(section) {
        Ok(toml) => put_issuer_answer(alloc, told, toml, line),
        Err(_) => told.extend_from_slice(b" not UTF-8"),
    }
}

/// Appends what the reader of a sheet or of an issuer says of the section on a line, or what that line is where it opens none; or what
/// a text is that has no head.
fn put_reason(
    alloc: Global,
    told: &mut Vec<u8>,
    text: &[u8],
    code: ScheduleCode,
    line: u32,
) -> Result<(), AllocError>
    ensures { OnOk result (told.new.items ≡ told.old.items ++ reason text.now code line) }
{
    match code {
        ScheduleCode::Sheet => put_sheet_reason(alloc, told, text, line),
        ScheduleCode::Issuer => put_issuer_reason(alloc, told, text, line),
        ScheduleCode::Head => told.extend_from_slice(kind_words(text)),
        _ => Ok(()),
    }
}

/// Appends the line of a section's fault.
fn put_refused(
    alloc: Global,
    told: &mut Vec<u8>,
    text: &[u8],
    code: ScheduleCode,
    line: u32,
) -> Result<(), AllocError>
    ensures { OnOk result (told.new.items ≡ told.old.items
        ++ said_of_fault text.now (ScheduleFault.Refused code line)) }
{
    let Ok(()) = put_place(told, u128::from(line)) else {
        return Err(AllocError);
    };
    let Ok(()) = told.extend_from_slice(section_code_word(code)) else {
        return Err(AllocError);
    };
    let Ok(()) = put_reason(alloc, told, text, code, line) else {
        return Err(AllocError);
    };
    put_end(told)
}

/// Appends the line of the fault that a text has by its sections, or as a schedule. An error is an allocation failure.
pub fn put_fault(
    alloc: Global,
    told: &mut Vec<u8>,
    text: &[u8],
    fault: ScheduleFault,
) -> Result<(), AllocError>
    ensures said { OnOk result (told.new.items ≡ told.old.items ++ said_of_fault text.now fault) }
    ensures memory { OnOk result (fault ≢ ScheduleFault.OutOfMemory) }
{
    match fault {
        ScheduleFault::Refused { code, line } => put_refused(alloc, told, text, code, line),
        ScheduleFault::OutOfMemory => Err(AllocError),
    }
}
