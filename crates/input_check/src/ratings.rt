//! The batch that is to be rated.

ghost use Rattle.std.specs.Prelude.{◌≡◌, ◌≤◌, [], ◌++◌, drop, length, Ok, OnOk};
ghost use Rattle.metering_model.specs.Sheet as model;
ghost use Rattle.metering_model.specs.RatedAlone.{journaled_in};
ghost use Rattle.fault_lines.specs.Ahead.{ahead_of_all};
ghost use Rattle.input_check.specs.Warnings.{if_taken, warned_of_rating};
ghost use Rattle.fault_lines.specs.Told.{bad_index};
ghost use Rattle.input_check.specs.Checks.{said_of_batch, said_of_rating};
ghost use Rattle.input_sections.specs.RateInput.{rate_input_in};

use batch_player::first_refusal;
use batch_view::BatchView;
use byte_text::line_count;
use fault_lines::{LatestDays, put_fault, put_refused_text, put_unknown_on};
use input_sections::{RateInput, rate_input};
use journal_rules::first_bad_alone;
use metering_model::Refusal;
use price_sheet::Sheet;
use std::alloc::{AllocError, Global};

/// The index of the first bad record of a batch in journals that have it and no other.
fn bad_alone(sheet: &Sheet, batch: &BatchView<'_>) -> Option<u16>
    ensures { result ≡ bad_index sheet.now [] batch.now }
{
    match first_bad_alone(sheet, batch) {
        Some((index, _)) => Some(index),
        None => None,
    }
}

/// Appends what is said of a batch behind so many lines of an input, and in another place which of its readings are far ahead.
fn check_batch(
    told: &mut Vec<u8>,
    warned: &mut Vec<u8>,
    sheet: &Sheet,
    lines: usize,
    text: &[u8],
) -> Result<(), AllocError>
    ensures said { (issuer : model.Issuer)
        → OnOk result (told.new.items ≡ told.old.items
        ++ said_of_batch sheet.now issuer lines text.now) }
    ensures ahead { (issuer : model.Issuer)
        → OnOk result (warned.new.items ≡ warned.old.items
        ++ ahead_of_all [] (if_taken lines (journaled_in sheet.now issuer text.now))) }
{
    let view = match BatchView::parse(text) {
        Ok(view) => view,
        Err(fault) => {
            return put_refused_text(told, lines, sheet, text, None, Refusal::BadBatch(fault));
        }
    };
    match first_refusal(sheet, &view) {
        Some(refusal) => {
            let bad = bad_alone(sheet, &view);
            put_refused_text(told, lines, sheet, text, bad, refusal)
        }
        None => LatestDays::none().put_ahead(warned, lines, &view),
    }
}

/// Appends what is said of a text that is to be rated, and in another place what is warned of.
pub(crate) fn check_rating(
    alloc: Global,
    text: &[u8],
    told: &mut Vec<u8>,
    warned: &mut Vec<u8>,
) -> Result<(), AllocError>
    ensures said { OnOk result (told.new.items ≡ told.old.items ++ said_of_rating text.now) }
    ensures warned { OnOk result
        (warned.new.items ≡ warned.old.items ++ warned_of_rating text.now) }
{
    match rate_input(alloc, text) {
        Ok(given) => {
            let checked = check_given(alloc, text, &given, told, warned);
            // Dropped by a call for the prover's time alone (docs/DECISIONS.md).
            given.release();
            checked
        }
        Err(fault) => put_fault(alloc, told, text, fault),
    }
}

/// The same of a text whose sections were read.
fn check_given(
    alloc: Global,
    text: &[u8],
    given: &RateInput,
    told: &mut Vec<u8>,
    warned: &mut Vec<u8>,
) -> Result<(), AllocError>
    requires within { given.now.batch_from ≤ length text.now }
    requires taken { rate_input_in text.now ≡ Ok (record {
      sheet = given.now.sheet;
      issuer = given.now.issuer;
      batch = drop given.now.batch_from text.now;
    }) }
    ensures said { OnOk result (told.new.items ≡ told.old.items ++ said_of_rating text.now) }
    ensures warned { OnOk result
        (warned.new.items ≡ warned.old.items ++ warned_of_rating text.now) }
{
    let Ok(()) = put_unknown_on(alloc, warned, text, 1) else {
        return Err(AllocError);
    };
    let (above, batch) = text.split_at(given.batch_from);
    check_batch(told, warned, &given.sheet, line_count(above), batch)
}
