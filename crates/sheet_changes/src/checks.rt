//! `focusd check --kind sheets`: what is wrong with the input of two sheets.

ghost use Rattle.std.specs.Prelude.{◌≡◌, ◌++◌, Ok, IsOk, OnOk};
ghost use Rattle.input_sections.specs.Sections.{whole_of};
ghost use Rattle.fault_lines.specs.Checked.{Checks};
ghost use Rattle.fault_lines.specs.UnknownKeys.{unknown_from};
ghost use Rattle.sheet_changes.specs.Changes.{two_sheets_in};
ghost use Rattle.sheet_changes.specs.Checks.{IsCheckOf, said_of_two_sheets, warned_of_two_sheets};
ghost use Rattle.sheet_changes.specs.Inner.SaidLines.{long_said, none_said};

use crate::changes::{drop_both, two_sheets};
use counted_io::{Sink, Source};
use fault_lines::{Check, check_input, put_fault, put_unknown_keys};
use input_sections::{ScheduleCode, Unread, read_section};
use program_input::PlayFault;
use std::alloc::{AllocError, Global};
use std::sync::Arc;

/// Appends the keys of two sections that no reader takes.
fn put_unknown(
    alloc: Global,
    told: &mut Vec<u8>,
    old: &Unread<'_>,
    new: &Unread<'_>,
) -> Result<(), AllocError>
    ensures { OnOk result (told.new.items
        ≡ told.old.items ++ (unknown_from old.now ++ unknown_from new.now)) }
{
    let Ok(()) = put_unknown_keys(alloc, told, old) else {
        return Err(AllocError);
    };
    put_unknown_keys(alloc, told, new)
}

/// Appends those of two that are taken, of which the first begins a text.
fn put_from(
    alloc: Global,
    told: &mut Vec<u8>,
    text: &[u8],
    old: &Unread<'_>,
) -> Result<(), AllocError>
    requires whole { whole_of text.now ≡ Ok old.now }
    requires taken { IsOk (two_sheets_in text.now) }
    ensures { OnOk result (told.new.items ≡ told.old.items ++ warned_of_two_sheets text.now) }
{
    match read_section(old, ScheduleCode::Sheet, b"sheet ", 200_000) {
        Ok(section) => put_unknown(alloc, told, old, &section.rest),
        Err(_) => Ok(()),
    }
}

/// Appends what is warned of in a text of two sections that are taken.
fn put_warnings(alloc: Global, told: &mut Vec<u8>, text: &[u8]) -> Result<(), AllocError>
    requires { IsOk (two_sheets_in text.now) }
    ensures { OnOk result (told.new.items ≡ told.old.items ++ warned_of_two_sheets text.now) }
{
    match Unread::whole(text) {
        Ok(unread) => put_from(alloc, told, text, &unread),
        Err(_) => Ok(()),
    }
}

/// Appends what is wrong with a text that is to be two sections, and of what it is warned where nothing is.
fn put_checked(
    alloc: Global,
    text: &[u8],
    told: &mut Vec<u8>,
    warned: &mut Vec<u8>,
) -> Result<(), AllocError>
    ensures said { OnOk result (told.new.items ≡ told.old.items ++ said_of_two_sheets text.now) }
    ensures warned { OnOk result
        (warned.new.items ≡ warned.old.items ++ warned_of_two_sheets text.now) }
{
    match two_sheets(alloc, text) {
        Ok(both) => {
            drop_both(both);
            put_warnings(alloc, warned, text)
        }
        Err(fault) => put_fault(alloc, told, text, fault),
    }
}

/// What an input of two sheets is checked as.
struct TwoSheets;

impl Check for TwoSheets {
    ghost said_of = { λ _. said_of_two_sheets };

    ghost warned_of = { λ _. warned_of_two_sheets };

    ghost lines = { λ _. none_said };

    ghost long = { λ _. long_said };

    fn put(
        &self,
        alloc: Global,
        input: &Arc<Vec<u8>>,
        told: &mut Vec<u8>,
        warnings: &mut Vec<u8>,
    ) -> Result<(), AllocError> {
        put_checked(alloc, input, told, warnings)
    }
}

/// Reads the sections of an old sheet and a new one, and writes what is wrong with them: the line of the first fault, or,
/// where nothing is wrong, a line for each key that no reader takes, of a section at most 100. It answers how many lines of
/// faults these are: warnings do not count.
///
/// At most 16,777,217 bytes are read. After `Write` a prefix of the lines was written, and after any other fault nothing.
/// Neither `Schedule` nor `Refused` is ever answered.
pub fn check_two_sheets<R: Source, W: Sink>(
    alloc: Global,
    reader: &mut R,
    writer: &mut W,
) -> Result<u64, PlayFault>
    ensures { Checks IsCheckOf result writer.old writer.new
        (R.remaining reader.old) (R.remaining reader.new)
        (W.contents writer.old) (W.contents writer.new)
        (R.failed_calls reader.old) (R.failed_calls reader.new)
        (W.failed_calls writer.old) (W.failed_calls writer.new) }
{
    check_input(alloc, &TwoSheets, reader, writer)
}
