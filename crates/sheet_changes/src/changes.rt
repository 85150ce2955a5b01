//! `focusd sheets`: what a new price sheet does to closed months.

ghost use Rattle.std.specs.Prelude.{◌≡◌, ◌≢◌, ◌↔◌, ◌+◌, [], ℕ, List, Ok, Err, IfOk, IfErr, IsTrue, OnOk, ◌⊎◌};
ghost use Rattle.std.specs.Io.KnownBytes.{Appends};
ghost use Rattle.counted_io.specs.Counts.{count_after};
ghost use Rattle.counted_io.specs.Streams.{UsesStreams};
ghost use Rattle.counted_io.specs.Writing.{AppendsPrefix};
ghost use Rattle.metering_model.specs.Limits.{most_input_bytes};
ghost use Rattle.metering_model.specs.Sheet as model;
ghost use Rattle.metering_model.specs.SheetRules.{IsSheet};
ghost use Rattle.metering_model.specs.declared.Refusal.{Refusal};
ghost use Rattle.input_sections.specs.declared.faults.ScheduleFault.{ScheduleFault};
ghost use Rattle.program_input.specs.Faults.{tells_of_reader, tells_of_writer};
ghost use Rattle.sheet_changes.specs.Changes.{GoesOnBy, IsSaidOf, SaysAll, SaysChanges, StaysBefore, two_sheets_in};
ghost use Rattle.sheet_changes.specs.Faults.{TellsFaults, of_input};
ghost use Rattle.sheet_changes.specs.Likenesses.{likeness_of};
ghost use Rattle.sheet_changes.specs.Inner.Compared.{StaysBy, last_sheet, nothing_behind};

use crate::comparisons::{Likeness, likeness_between, put_likeness};
use crate::faults::SheetsFault;
use crate::listings::put_fields;
use crate::regions::put_regions;
use counted_io::{Sink, Source, write_all};
use input_sections::{ScheduleCode, ScheduleFault, Unread, read_sheet};
use price_sheet::Sheet;
use program_input::{PlayFault, read_input};
use std::alloc::{AllocError, Global};
use utc_calendar::Day;

/// What is asked of two sheets.
#[derive(Clone, Copy, Debug, PartialEq, Eq, Drop)]
pub struct Asked {
    /// The day from which the new sheet is to go on, and name each region alike, if one is given.
    pub before: Option<Day>,
    /// Whether each field that differs of a price in force, a commitment or a region is listed.
    pub all: bool,
}

/// Refuses what stands behind the last section.
fn nothing_behind(unread: &Unread<'_>) -> Result<(), ScheduleFault>
    ensures taken { IfOk result (λ none. nothing_behind unread.now ≡ Ok none) }
    ensures refused { IfErr result (λ fault. (fault ≢ ScheduleFault.OutOfMemory)
        × (nothing_behind unread.now ≡ Err fault)) }
{
    if unread.left().is_empty() {
        Ok(())
    } else {
        Err(ScheduleFault::Refused {
            code: ScheduleCode::Sheet,
            line: unread.line(),
        })
    }
}

/// Drops two sheets, each by a call: for the prover's time alone (docs/DECISIONS.md), as whoever drops both calls this.
pub(crate) fn drop_both(both: (Sheet, Sheet)) {
    let (old, new) = both;
    old.release();
    new.release();
}

/// A sheet behind which nothing is to stand.
fn alone(sheet: Sheet, behind: &Unread<'_>) -> Result<Sheet, ScheduleFault>
    ensures taken { IfOk result (λ new. (new ≡ sheet) × (nothing_behind behind.now ≡ Ok tt)) }
    ensures refused { IfErr result (λ fault. (fault ≢ ScheduleFault.OutOfMemory)
        × (nothing_behind behind.now ≡ Err fault)) }
{
    match nothing_behind(behind) {
        Ok(()) => Ok(sheet),
        Err(fault) => {
            sheet.release();
            Err(fault)
        }
    }
}

/// The sheet of an input's last section: what stands behind it is refused.
fn last_sheet(alloc: Global, unread: &Unread<'_>) -> Result<Sheet, ScheduleFault>
    ensures taken { IfOk result (λ new. (last_sheet unread.now ≡ Ok new) × IsSheet new) }
    ensures refused { IfErr result
        (λ fault. fault ≢ ScheduleFault.OutOfMemory → last_sheet unread.now ≡ Err fault) }
{
    match read_sheet(alloc, unread) {
        Ok((new, behind)) => alone(new, &behind),
        Err(fault) => Err(fault),
    }
}

/// An old sheet, and that of the last section.
fn with_last(
    alloc: Global,
    old: Sheet,
    unread: &Unread<'_>,
) -> Result<(Sheet, Sheet), ScheduleFault>
    ensures taken { IfOk result
        (λ both. (both.0 ≡ old) × (last_sheet unread.now ≡ Ok both.1) × IsSheet both.1) }
    ensures refused { IfErr result
        (λ fault. fault ≢ ScheduleFault.OutOfMemory → last_sheet unread.now ≡ Err fault) }
{
    match last_sheet(alloc, unread) {
        Ok(new) => Ok((old, new)),
        Err(fault) => {
            old.release();
            Err(fault)
        }
    }
}

/// The old sheet and the new one of an input, each in a section of its own.
#[tactic(auto, unfolding(crate::specs::Changes::two_sheets_in))]
pub(crate) fn two_sheets(alloc: Global, text: &[u8]) -> Result<(Sheet, Sheet), ScheduleFault>
    ensures taken { IfOk result (λ both. two_sheets_in text.now ≡ Ok (both.0, both.1)) }
    ensures refused { IfErr result
        (λ fault. fault ≢ ScheduleFault.OutOfMemory → two_sheets_in text.now ≡ Err fault) }
    ensures rules { IfOk result (λ both. IsSheet both.0 × IsSheet both.1) }
{
    match Unread::whole(text) {
        Ok(unread) => match read_sheet(alloc, &unread) {
            Ok((old, behind)) => with_last(alloc, old, &behind),
            Err(fault) => Err(fault),
        },
        Err(fault) => Err(fault),
    }
}

/// Whether a new sheet goes on from a day, as its likeness tells.
fn goes_on(likeness: &Likeness<'_>, day: Day) -> bool
    ensures { IsTrue result ↔ GoesOnBy (likeness_of likeness.now) day }
{
    match likeness {
        Likeness::Alike => true,
        Likeness::AlikeBefore(last) => day <= *last,
        Likeness::UnlikeBase | Likeness::UnlikeCommitment(_) => false,
    }
}

/// Whether all stays that is asked for, by a likeness and by whether no region is listed.
fn stays(before: Option<Day>, likeness: &Likeness<'_>, none_listed: bool) -> bool
    ensures { IsTrue result ↔ StaysBy before (likeness_of likeness.now) none_listed }
{
    match before {
        Some(day) => none_listed && goes_on(likeness, day),
        None => true,
    }
}

/// Puts what is said of two sheets into an empty text. It answers whether all stays that is asked for.
fn put_changes(
    text: &mut Vec<u8>,
    before: Option<Day>,
    old: &Sheet,
    new: &Sheet,
) -> Result<bool, AllocError>
    requires empty { text.old.items ≡ [] }
    requires rules { IsSheet old.now × IsSheet new.now }
    ensures says { OnOk result (SaysChanges old.now new.now text.new.items) }
    ensures stays { IfOk result (λ stays. IsTrue stays ↔ StaysBefore before old.now new.now) }
{
    let likeness = likeness_between(old, new);
    let Ok(()) = put_likeness(text, &likeness) else {
        return Err(AllocError);
    };
    let first = text.len();
    let Ok(()) = put_regions(text, old, new) else {
        return Err(AllocError);
    };
    Ok(stays(before, &likeness, text.len() == first))
}

/// Puts what is said of two sheets into an empty text, and behind it each field that differs, where all is asked for.
/// It answers whether all stays that is asked for.
fn put_answer(
    alloc: Global,
    text: &mut Vec<u8>,
    asked: Asked,
    old: &Sheet,
    new: &Sheet,
) -> Result<bool, AllocError>
    requires empty { text.old.items ≡ [] }
    requires rules { IsSheet old.now × IsSheet new.now }
    ensures says { OnOk result (SaysAll asked.all old.now new.now text.new.items) }
    ensures stays { IfOk result (λ stays. IsTrue stays ↔ StaysBefore asked.before old.now new.now) }
{
    let Ok(stays) = put_changes(text, asked.before, old, new) else {
        return Err(AllocError);
    };
    if asked.all {
        let Ok(()) = put_fields(alloc, text, old, new) else {
            return Err(AllocError);
        };
    }
    Ok(stays)
}

/// Writes what is said of two sheets, all at once: at want of memory nothing.
fn write_changes<W: Sink>(
    alloc: Global,
    asked: Asked,
    old: &Sheet,
    new: &Sheet,
    writer: &mut W,
) -> Result<bool, PlayFault>
    requires { IsSheet old.now × IsSheet new.now }
    ensures said { IfOk result (λ stays. (IsTrue stays ↔ StaysBefore asked.before old.now new.now)
        × (text : List ℕ) × SaysAll asked.all old.now new.now text
        × Appends (W.contents writer.old) (W.contents writer.new) text) }
    ensures prefix { result ≡ Err PlayFault.Write → (text : List ℕ)
        × SaysAll asked.all old.now new.now text
        × AppendsPrefix (W.contents writer.old) (W.contents writer.new) text }
    ensures kept { IfErr result (λ fault. fault ≢ PlayFault.Write → writer.new ≡ writer.old) }
    ensures others { (result ≢ Err PlayFault.Read)
        × ((fault : ScheduleFault) → result ≢ Err (PlayFault.Schedule fault))
        × ((refusal : Refusal) → result ≢ Err (PlayFault.Refused refusal)) }
    ensures writes { W.failed_calls writer.new
        ≡ count_after (tells_of_writer result) (W.failed_calls writer.old) }
{
    let mut text = Vec::new(alloc);
    let Ok(stays) = put_answer(alloc, &mut text, asked, old, new) else {
        return Err(PlayFault::OutOfMemory);
    };
    match write_all(writer, &text) {
        Ok(()) => Ok(stays),
        Err(_) => Err(PlayFault::Write),
    }
}

/// Writes what is said of the two sheets of an input that was read.
fn compare_input<W: Sink>(
    alloc: Global,
    asked: Asked,
    input: &[u8],
    writer: &mut W,
) -> Result<bool, PlayFault>
    ensures said { IfOk result (λ stays. (old new : model.Sheet) × (text : List ℕ)
        × (IsTrue stays ↔ StaysBefore asked.before old new)
        × (two_sheets_in input.now ≡ Ok (old, new)) × SaysAll asked.all old new text
        × Appends (W.contents writer.old) (W.contents writer.new) text) }
    ensures prefix { result ≡ Err PlayFault.Write → (old new : model.Sheet) × (text : List ℕ)
        × (two_sheets_in input.now ≡ Ok (old, new)) × SaysAll asked.all old new text
        × AppendsPrefix (W.contents writer.old) (W.contents writer.new) text }
    ensures section { (fault : ScheduleFault) → result ≡ Err (PlayFault.Schedule fault)
        → (fault ≢ ScheduleFault.OutOfMemory) × (two_sheets_in input.now ≡ Err fault) }
    ensures kept { IfErr result (λ fault. fault ≢ PlayFault.Write → writer.new ≡ writer.old) }
    ensures others { (result ≢ Err PlayFault.Read)
        × ((refusal : Refusal) → result ≢ Err (PlayFault.Refused refusal)) }
    ensures writes { W.failed_calls writer.new
        ≡ count_after (tells_of_writer result) (W.failed_calls writer.old) }
{
    match two_sheets(alloc, input) {
        Ok(both) => {
            let result = write_changes(alloc, asked, &both.0, &both.1, writer);
            drop_both(both);
            result
        }
        Err(fault) => Err(PlayFault::from(fault)),
    }
}

/// Reads the sections of an old sheet and a new one, and writes what the new one does to closed months: a line that
/// says from which days it goes on, and a line for each region that the two do not name alike. Where all is asked for
/// there follows a line for each field that differs of a price in force, a commitment or a region.
///
/// Where a day is given, the new sheet is to go on from it and to name each region alike. Where it does not, that is
/// reported once all lines were written (`Unlike`). At most 16,777,217 bytes are read. After `Write` a prefix of the lines
/// was written, and after any fault but that and `Unlike` nothing. `Refused` is never answered.
pub fn sheets_text<R: Source, W: Sink>(
    alloc: Global,
    asked: Asked,
    reader: &mut R,
    writer: &mut W,
) -> Result<(), SheetsFault>
    // With Ok just what is said of the two sheets was written, and all stays that was asked for.
    ensures said { OnOk result ((old new : model.Sheet) × (text : List ℕ)
        × IsSaidOf (R.remaining reader.old) asked.all old new text
        × StaysBefore asked.before old new
        × Appends (W.contents writer.old) (W.contents writer.new) text) }

    // With `Unlike` it was written too, and not all stays.
    ensures unlike { result ≡ Err SheetsFault.Unlike
        → (old new : model.Sheet) × (text : List ℕ)
        × IsSaidOf (R.remaining reader.old) asked.all old new text
        × (¬ StaysBefore asked.before old new)
        × Appends (W.contents writer.old) (W.contents writer.new) text }

    // After `Write` a prefix of it was, and never all of it.
    ensures prefix { result ≡ Err (SheetsFault.Input PlayFault.Write)
        → (old new : model.Sheet) × (text : List ℕ)
        × IsSaidOf (R.remaining reader.old) asked.all old new text
        × AppendsPrefix (W.contents writer.old) (W.contents writer.new) text }

    // A section is refused as the input's first fault, and never for want of memory. `Refused` is never answered.
    ensures faults { TellsFaults result (R.remaining reader.old) }
    ensures kept { IfErr result (λ fault. fault ≢ SheetsFault.Unlike
        → fault ≢ SheetsFault.Input PlayFault.Write → writer.new ≡ writer.old) }

    // With Ok and with `Unlike` nothing is left to read. `Read` and `Write` come of one failed call each, and no other call
    // fails.
    ensures streams { UsesStreams (most_input_bytes + 1)
        ((result ≡ Ok tt) ⊎ (result ≡ Err SheetsFault.Unlike))
        (tells_of_reader (of_input tt result)) (tells_of_writer (of_input tt result))
        (R.remaining reader.old) (R.remaining reader.new)
        (R.failed_calls reader.old) (R.failed_calls reader.new)
        (W.failed_calls writer.old) (W.failed_calls writer.new) }
{
    let input = match read_input(alloc, reader) {
        Ok(input) => input,
        Err(fault) => return Err(SheetsFault::Input(fault)),
    };
    match compare_input(alloc, asked, &input, writer) {
        Ok(true) => Ok(()),
        Ok(false) => Err(SheetsFault::Unlike),
        Err(fault) => Err(SheetsFault::Input(fault)),
    }
}
