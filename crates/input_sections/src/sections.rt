//! Sections of a text: a line that says how many lines follow, and these.

ghost use Rattle.std.specs.Prelude.{◌≡◌, ◌≢◌, ◌<◌, ◌≤◌, Ok, Err, IfOk, IfErr, IfSome, MatchResult, codes, length};
ghost use Rattle.std.specs.Str.{IsUtf8};
ghost use Rattle.metering_model.specs.Limits.{most_sheet_lines, most_issuer_lines};
ghost use Rattle.toml.specs.Errors.{IsBlank};
ghost use Rattle.metering_model.specs.SheetRules.{IsSheet, IsIssuer};
ghost use Rattle.input_sections.specs.Sections.{HasText, lines_left, number_behind, section_in, section_of, read_as, sheet_section, issuer_section};
ghost use Rattle.input_sections.specs.Inner.Told.{told_of_sheet, told_of_issuer};
ghost use Rattle.price_sheet.specs.SheetReading.{sheet_of_text};
ghost use Rattle.sheet_text.specs.IssuerReading.{issuer_of_text};

use crate::faults::{ScheduleCode, ScheduleFault};
use crate::unread::{Unread, behind_word};
use byte_text::read_whole;
use price_sheet::Sheet;
use sheet_text::{Issuer, IssuerFault, SheetFault};
use std::alloc::Global;

/// A section: the text of its lines, each with its line feed, and what is left after it.
#[derive(Drop)]
pub struct Section<'a> {
    /// The lines of the section.
    pub text: &'a [u8],
    /// What is left after them.
    pub rest: Unread<'a>,
}

/// The number from 1 to `most` that stands after the word in a line, else None. `most` is at most 1,000,000.
pub fn number_behind(line: &[u8], word: &[u8], most: u32) -> Option<u32>
    requires { most ≤ 1_000_000 }
    ensures value { result ≡ number_behind word.now most line.now }
    ensures within { IfSome result (λ n. n ≤ most) }
{
    read_whole(behind_word(line, word)?, 1, most)
}

/// The next `count` lines of what is left, as a section. Where fewer are left, L7 is reported at `line`, the number of
/// the line that opens them.
pub fn lines_below<'a>(
    below: &Unread<'a>,
    count: u32,
    line: u32,
) -> Result<Section<'a>, ScheduleFault>
    ensures section { MatchResult result
        (λ s. (count ≤ length (lines_left below.now))
        × (section_of count below.now ≡ record { text = s.text.now; rest = s.rest }))
        (λ fault. (length (lines_left below.now) < count)
        × (fault ≡ ScheduleFault.Refused ScheduleCode.Lines line)) }
    ensures text { IfOk result (λ s. s.rest.text ≡ below.now.text) }
{
    let Some(rest) = below.behind_lines(count) else {
        return Err(ScheduleFault::Refused {
            code: ScheduleCode::Lines,
            line,
        });
    };
    let left = below.left();
    Ok(Section {
        text: &left[..rest.from() - below.from()],
        rest,
    })
}

/// Reads the section that a line with the word and a number from 1 to `most` opens; `most` is at most 1,000,000.
///
/// Refused at that line: with L7 where it has no line feed or fewer lines follow, and with `code` where it is absent or
/// of another form. Never OutOfMemory.
#[tactic(auto, unfolding(crate::specs::Sections::section_in))]
pub fn read_section<'a>(
    unread: &Unread<'a>,
    code: ScheduleCode,
    word: &[u8],
    most: u32,
) -> Result<Section<'a>, ScheduleFault>
    requires { most ≤ 1_000_000 }
    ensures section { MatchResult result
        (λ s. section_in code word.now most unread.now
        ≡ Ok (record { text = s.text.now; rest = s.rest }))
        (λ fault. section_in code word.now most unread.now ≡ Err fault) }
    ensures text { IfOk result (λ s. s.rest.text ≡ unread.now.text) }
    ensures want { IfErr result (λ fault. fault ≢ ScheduleFault.OutOfMemory) }
{
    let line = unread.line();
    let (opening, below) = unread.first_line(code)?;
    let Some(count) = number_behind(opening, word, most) else {
        return Err(ScheduleFault::Refused { code, line });
    };
    lines_below(&below, count, line)
}

/// What a sheet's fault is told as, where its section opens at a line.
fn told_of_sheet(fault: SheetFault, line: u32) -> ScheduleFault
    ensures { result ≡ told_of_sheet fault line }
{
    match fault {
        SheetFault::OutOfMemory => ScheduleFault::OutOfMemory,
        SheetFault::NotToml
        | SheetFault::Missing(_, _)
        | SheetFault::BadValue(_, _)
        | SheetFault::Duplicate(_)
        | SheetFault::UnknownSku(_, _) => ScheduleFault::Refused {
            code: ScheduleCode::Sheet,
            line,
        },
    }
}

/// What an issuer's fault is told as, where its section opens at a line.
fn told_of_issuer(fault: IssuerFault, line: u32) -> ScheduleFault
    ensures { result ≡ told_of_issuer fault line }
{
    match fault {
        IssuerFault::OutOfMemory => ScheduleFault::OutOfMemory,
        IssuerFault::NotToml | IssuerFault::Missing(_) | IssuerFault::BadValue(_) => {
            ScheduleFault::Refused {
                code: ScheduleCode::Issuer,
                line,
            }
        }
    }
}

/// The sheet of a section that opens at a line.
fn sheet_of(alloc: Global, text: &[u8], line: u32) -> Result<Sheet, ScheduleFault>
    ensures taken { IfOk result
        (λ sheet. read_as sheet_of_text (ScheduleFault.Refused ScheduleCode.Sheet line) text.now
        ≡ Ok sheet) }
    ensures refused { IfErr result (λ fault. fault ≢ ScheduleFault.OutOfMemory
        → read_as sheet_of_text (ScheduleFault.Refused ScheduleCode.Sheet line) text.now
        ≡ Err fault) }
    ensures want { IfErr result
        (λ fault. fault ≡ ScheduleFault.OutOfMemory → IsUtf8 text.now × ¬ IsBlank text.now) }
    ensures rules { IfOk result IsSheet }
{
    let Ok(text) = str::from_utf8(text) else {
        return Err(ScheduleFault::Refused {
            code: ScheduleCode::Sheet,
            line,
        });
    };
    match Sheet::read(alloc, text) {
        Ok(sheet) => Ok(sheet),
        Err(fault) => Err(told_of_sheet(fault, line)),
    }
}

/// The issuer of a section that opens at a line.
fn issuer_of(alloc: Global, text: &[u8], line: u32) -> Result<Issuer, ScheduleFault>
    ensures taken { IfOk result
        (λ issuer. read_as issuer_of_text (ScheduleFault.Refused ScheduleCode.Issuer line) text.now
        ≡ Ok issuer) }
    ensures refused { IfErr result (λ fault. fault ≢ ScheduleFault.OutOfMemory
        → read_as issuer_of_text (ScheduleFault.Refused ScheduleCode.Issuer line) text.now
        ≡ Err fault) }
    ensures want { IfErr result (λ fault. fault ≡ ScheduleFault.OutOfMemory → IsUtf8 text.now) }
    ensures rules { IfOk result IsIssuer }
{
    let Ok(text) = str::from_utf8(text) else {
        return Err(ScheduleFault::Refused {
            code: ScheduleCode::Issuer,
            line,
        });
    };
    match Issuer::read(alloc, text) {
        Ok(issuer) => Ok(issuer),
        Err(fault) => Err(told_of_issuer(fault, line)),
    }
}

/// Reads a section of up to 200,000 lines that is a price sheet; what is left stands after it. Refused as
/// `read_section` says, and with L4 where its lines are no sheet. OutOfMemory comes only of a section that is UTF-8 and
/// not blank.
#[tactic(auto, unfolding(crate::specs::Sections::sheet_section))]
pub fn read_sheet<'a>(
    alloc: Global,
    unread: &Unread<'a>,
) -> Result<(Sheet, Unread<'a>), ScheduleFault>
    ensures taken { IfOk result (λ r. sheet_section unread.now ≡ Ok (r.0, r.1)) }
    ensures refused { IfErr result
        (λ fault. fault ≢ ScheduleFault.OutOfMemory → sheet_section unread.now ≡ Err fault) }
    ensures want { IfErr result (λ fault. fault ≡ ScheduleFault.OutOfMemory
        → HasText (λ text. IsUtf8 text × ¬ IsBlank text)
        (section_in ScheduleCode.Sheet (codes "sheet ") most_sheet_lines unread.now)) }
    ensures rules { IfOk result (λ r. IsSheet r.0) }
    ensures text { IfOk result (λ r. r.1.text ≡ unread.now.text) }
{
    let section = read_section(unread, ScheduleCode::Sheet, b"sheet ", 200_000)?;
    let sheet = sheet_of(alloc, section.text, unread.line())?;
    Ok((sheet, section.rest))
}

/// Reads a section of up to 100 lines that is an issuer; what is left stands after it. Refused as `read_section` says,
/// and with L5 where its lines are no issuer. OutOfMemory comes only of a section that is UTF-8.
#[tactic(auto, unfolding(crate::specs::Sections::issuer_section))]
pub fn read_issuer<'a>(
    alloc: Global,
    unread: &Unread<'a>,
) -> Result<(Issuer, Unread<'a>), ScheduleFault>
    ensures taken { IfOk result (λ r. issuer_section unread.now ≡ Ok (r.0, r.1)) }
    ensures refused { IfErr result
        (λ fault. fault ≢ ScheduleFault.OutOfMemory → issuer_section unread.now ≡ Err fault) }
    ensures want { IfErr result (λ fault. fault ≡ ScheduleFault.OutOfMemory
        → HasText IsUtf8 (section_in ScheduleCode.Issuer
        (codes "issuer ") most_issuer_lines unread.now)) }
    ensures rules { IfOk result (λ r. IsIssuer r.0) }
    ensures text { IfOk result (λ r. r.1.text ≡ unread.now.text) }
{
    let section = read_section(unread, ScheduleCode::Issuer, b"issuer ", 100)?;
    let issuer = issuer_of(alloc, section.text, unread.line())?;
    Ok((issuer, section.rest))
}
