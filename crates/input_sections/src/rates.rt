//! The input of a rating: a sheet and an issuer, each if it is there, and a batch.

ghost use Rattle.std.specs.Prelude.{◌≡◌, ◌≢◌, ◌≤◌, ℕ, Ok, Err, IfOk, IfErr, IsOk, drop, length, codes};
ghost use Rattle.metering_model.specs.SheetRules.{IsSheet, IsIssuer};
ghost use Rattle.input_sections.specs.RateInput.{default_sheet, if_begun, rate_input_in};
ghost use Rattle.input_sections.specs.Sections.{sheet_section, issuer_section, whole_of};
ghost use Rattle.sheet_text.specs.Samples.{sample_issuer};

use crate::faults::ScheduleFault;
use crate::sections::{read_issuer, read_sheet};
use crate::unread::Unread;
use price_sheet::Sheet;
use sheet_text::{Issuer, Month};
use std::alloc::Global;

const BASE_YEAR: u16 = 2025;

/// The input of a rating: a sheet and an issuer, and where in the text the batch begins, in bytes.
#[derive(Drop)]
pub struct RateInput {
    pub sheet: Sheet,
    pub issuer: Issuer,
    /// Where the batch begins, in bytes from the beginning of the text.
    pub batch_from: usize,
}

impl RateInput {
    /// Drops the input. A crate above calls it in place of `drop`, for the prover's time alone (docs/DECISIONS.md).
    pub fn release(self) {
        let RateInput { sheet, issuer, .. } = self;
        sheet.release();
        issuer.release();
    }
}

/// The sheet, if a section is there, or else one without rows whose base month is 2025-01.
fn sheet_or_default<'a>(
    alloc: Global,
    unread: Unread<'a>,
) -> Result<(Sheet, Unread<'a>), ScheduleFault>
    ensures taken { IfOk result
        (λ r. if_begun (codes "sheet ") sheet_section default_sheet unread.entry ≡ Ok (r.0, r.1)) }
    ensures refused { IfErr result (λ fault. fault ≢ ScheduleFault.OutOfMemory
        → if_begun (codes "sheet ") sheet_section default_sheet unread.entry ≡ Err fault) }
    ensures rules { IfOk result (λ r. IsSheet r.0) }
    ensures text { IfOk result (λ r. r.1.text ≡ unread.entry.text) }
{
    if unread.begins_with(b"sheet ") {
        return read_sheet(alloc, &unread);
    }
    match Sheet::empty(alloc, Month::of(BASE_YEAR, 1)) {
        Ok(sheet) => Ok((sheet, unread)),
        Err(_) => Err(ScheduleFault::OutOfMemory),
    }
}

/// The issuer, if a section is there, or else the sample.
fn issuer_or_sample<'a>(
    alloc: Global,
    unread: Unread<'a>,
) -> Result<(Issuer, Unread<'a>), ScheduleFault>
    ensures taken { IfOk result
        (λ r. if_begun (codes "issuer ") issuer_section sample_issuer unread.entry
        ≡ Ok (r.0, r.1)) }
    ensures refused { IfErr result (λ fault. fault ≢ ScheduleFault.OutOfMemory
        → if_begun (codes "issuer ") issuer_section sample_issuer unread.entry ≡ Err fault) }
    ensures rules { IfOk result (λ r. IsIssuer r.0) }
    ensures text { IfOk result (λ r. r.1.text ≡ unread.entry.text) }
{
    if unread.begins_with(b"issuer ") {
        return read_issuer(alloc, &unread);
    }
    match Issuer::sample(alloc) {
        Ok(issuer) => Ok((issuer, unread)),
        Err(_) => Err(ScheduleFault::OutOfMemory),
    }
}

/// The input of a rating whose sheet was read: the issuer follows, and the batch is what is left then.
fn input_behind<'a>(
    alloc: Global,
    sheet: Sheet,
    unread: Unread<'a>,
) -> Result<RateInput, ScheduleFault>
    ensures sheet { IfOk result (λ r. r.sheet ≡ sheet) }
    ensures taken { IfOk result
        (λ r. (line : ℕ) × (if_begun (codes "issuer ") issuer_section sample_issuer unread.entry
        ≡ Ok (r.issuer, record { text = unread.entry.text; from = r.batch_from; line = line }))) }
    ensures within { IfOk result (λ r. r.batch_from ≤ length unread.entry.text) }
    ensures refused { IfErr result (λ fault. fault ≢ ScheduleFault.OutOfMemory
        → if_begun (codes "issuer ") issuer_section sample_issuer unread.entry ≡ Err fault) }
    ensures rules { IfOk result (λ r. IsIssuer r.issuer) }
{
    match issuer_or_sample(alloc, unread) {
        Ok((issuer, unread)) => Ok(RateInput {
            sheet,
            issuer,
            batch_from: unread.from(),
        }),
        Err(fault) => {
            // Dropped by a call for the prover's time alone (docs/DECISIONS.md).
            sheet.release();
            Err(fault)
        }
    }
}

/// Reads the input of a rating: a text that may begin with the sections of a sheet, then of an issuer, and whose rest
/// is a batch, which is not read here. Without a sheet the base month is 2025-01 and there are no rows; without an
/// issuer it is the sample. Refused is the first fault by line. OutOfMemory comes only of a text of at most 16,777,216
/// bytes.
#[tactic(auto, unfolding(crate::specs::RateInput::rate_input_in))]
pub fn rate_input(alloc: Global, text: &[u8]) -> Result<RateInput, ScheduleFault>
    ensures taken { IfOk result (λ r. rate_input_in text.now
        ≡ Ok (record { sheet = r.sheet; issuer = r.issuer; batch = drop r.batch_from text.now })) }
    ensures within { IfOk result (λ r. r.batch_from ≤ length text.now) }
    ensures refused { IfErr result
        (λ fault. fault ≢ ScheduleFault.OutOfMemory → rate_input_in text.now ≡ Err fault) }
    ensures want { IfErr result
        (λ fault. fault ≡ ScheduleFault.OutOfMemory → IsOk (whole_of text.now)) }
    ensures rules { IfOk result (λ r. IsSheet r.sheet × IsIssuer r.issuer) }
{
    let unread = Unread::whole(text)?;
    let (sheet, unread) = sheet_or_default(alloc, unread)?;
    input_behind(alloc, sheet, unread)
}
