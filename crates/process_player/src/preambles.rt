//! With what a process is begun, up to its log: what stands first, the sheet and the issuer.

ghost use Rattle.std.specs.Prelude.{◌≡◌, ◌≢◌, ◌<◌, ◌≤◌, [], length, drop, IfErr, IfOk, Ok, Err};
ghost use Rattle.process_player.specs.declared.faults.ProcessFault.{ProcessFault};
ghost use Rattle.metering_model.specs.Limits.{most_input_bytes, most_transcript_bytes};
ghost use Rattle.input_sections.specs.declared.faults.ScheduleFault.{ScheduleFault};
ghost use Rattle.input_sections.specs.Sections as sections;
ghost use Rattle.line_source.specs.Reading.{ReadsUpTo, Takes};
ghost use Rattle.process_player.specs.Starts.{preamble_in};
ghost use Rattle.process_player.specs.Inner.Calls.{Reads, StopsReading};
ghost use Rattle.process_player.specs.Inner.Fronts.{AreHeadsTo, IsPreambleShort, IsPreambleTo, IsSectionShort, IsSectionTo, end_of};
ghost use Rattle.process_player.specs.Inner.SheetAndIssuer.{sheet_and_issuer_in};
ghost use Rattle.process_player.specs.Inner.Reading.{HasRead, FallsShort};
ghost use Rattle.process_player.specs.Inner.Refusing.{OfAll, RejectsPreamble};

use crate::faults::{ProcessFault, fault_of_section};
use crate::heads::{ProcessKind, drop_log, first_word, heads_log, read_head};
use byte_text::is_same;
use counted_io::Source;
use input_sections::{
    Issuer, ScheduleFault, Sheet, Unread as Left, number_behind, read_issuer, read_sheet,
};
use line_source::{Found, Unread, lines_end_within};
use log_text::Log;
use std::alloc::Global;

/// More bytes than these are too many for what stands before the log.
const MOST_BYTES: usize = 16_777_216;

/// What stands before the log.
#[derive(Drop)]
pub(crate) struct Preamble {
    /// The log that a process has which has stored nothing.
    pub(crate) own: Log,
    pub(crate) sheet: Sheet,
    pub(crate) issuer: Issuer,
    /// The number of the line behind it.
    pub(crate) line: u32,
}

/// Drops a preamble, part by part, for the prover's time alone (docs/DECISIONS.md).
pub(crate) fn drop_preamble(preamble: Preamble) {
    let Preamble {
        own,
        sheet,
        issuer,
        ..
    } = preamble;
    drop_log(own);
    sheet.release();
    issuer.release();
}

/// What is judged of what is ahead, from its beginning to that place.
#[derive(Clone, Copy)]
pub(crate) enum Judged {
    /// What is looked for, which is all there.
    Whole(usize),
    /// What tells that it isn't: lines up to the first that is another, or all, where no more comes, or more is ahead than may be.
    Part(usize),
}

/// To which place that is.
fn end_of(judged: Judged) -> usize
    ensures { result ≡ end_of judged }
{
    match judged {
        Judged::Whole(end) => end,
        Judged::Part(end) => end,
    }
}

/// The sheet and the issuer behind what stands first, and the number of the line behind them.
fn read_sheet_and_issuer(
    alloc: Global,
    unread: &Left<'_>,
) -> Result<(Sheet, Issuer, u32), ScheduleFault>
    ensures read { IfOk result (λ r. (rest : sections.Unread)
        × (sheet_and_issuer_in unread.now ≡ Ok (r.0, r.1, rest)) × (rest.line ≡ r.2)) }
    ensures refused { IfErr result
        (λ fault. fault ≢ ScheduleFault.OutOfMemory → sheet_and_issuer_in unread.now ≡ Err fault) }
{
    let (sheet, below) = read_sheet(alloc, unread)?;
    match read_issuer(alloc, &below) {
        Err(fault) => {
            // Dropped by a call for the prover's time alone (docs/DECISIONS.md).
            sheet.release();
            Err(fault)
        }
        Ok((issuer, rest)) => Ok((sheet, issuer, rest.line())),
    }
}

/// The preamble that a text is.
#[tactic(auto, unfolding(crate::specs::Starts::preamble_in))]
fn preamble_in(alloc: Global, kind: ProcessKind, text: &[u8]) -> Result<Preamble, ScheduleFault>
    ensures read { IfOk result (λ p. (rest : sections.Unread)
        × (preamble_in kind text.now ≡ Ok (record {
          own = p.own;
          sheet = p.sheet;
          issuer = p.issuer;
          rest = rest;
        })) × (rest.line ≡ p.line)) }
    ensures refused { IfErr result
        (λ fault. fault ≢ ScheduleFault.OutOfMemory → preamble_in kind text.now ≡ Err fault) }
{
    let unread = Left::whole(text)?;
    let (own, below) = read_head(alloc, kind, &unread)?;
    match read_sheet_and_issuer(alloc, &below) {
        Ok((sheet, issuer, line)) => Ok(Preamble {
            own,
            sheet,
            issuer,
            line,
        }),
        Err(fault) => {
            drop_log(own);
            Err(fault)
        }
    }
}

/// Reads until a section is ahead behind the first bytes, a line with a word and a number of lines, and these. Where it isn't
/// there, the line has another form, no more comes, or more is ahead than a preamble may have.
fn section_end<S: Source>(
    unread: &mut Unread,
    source: &mut S,
    from: usize,
    word: &[u8],
    most: u32,
) -> Result<Judged, ProcessFault>
    requires read { unread.old.read ≤ most_transcript_bytes }
    requires from { from ≤ length unread.old.bytes }
    requires most { most ≤ 1_000_000 }
    requires at_hand { length (drop from unread.old.bytes) < 65_536 }
    ensures takes { Takes unread.old.bytes unread.new.bytes unread.old.read unread.new.read
        (S.remaining source.old) (S.remaining source.new) [] }
    ensures found { IfOk result
        (IsSectionTo word.now most from unread.new.bytes (S.remaining source.new)) }
    ensures within { IfOk result (λ judged. end_of judged ≤ length unread.new.bytes) }
    ensures block { ReadsUpTo most_input_bytes unread.old.bytes unread.new.bytes }
    ensures reads { Reads result unread.new.read (S.failed_calls source.old)
        (S.failed_calls source.new) }
    ensures others { IfErr result (StopsReading (most_transcript_bytes < unread.new.read)
        (IsSectionShort word.now most from unread.new.bytes)) }
{
    let Found::Lines(opening) = lines_end_within(unread, source, from, 1, MOST_BYTES)? else {
        return Ok(Judged::Part(unread.ahead().len()));
    };
    let Some(lines) = number_behind(&unread.ahead()[from..opening - 1], word, most) else {
        return Ok(Judged::Part(opening));
    };
    let count = u64::from(lines);
    let Found::Lines(end) = lines_end_within(unread, source, opening, count, MOST_BYTES)? else {
        return Ok(Judged::Part(unread.ahead().len()));
    };
    Ok(Judged::Whole(end))
}

/// Reads until the first two lines are ahead, of which the first is the kind's, and the second heads a log of such a process. What
/// has another form is judged with nothing behind it, so that no more is read than tells it.
fn heads_end<S: Source>(
    alloc: Global,
    kind: ProcessKind,
    unread: &mut Unread,
    source: &mut S,
) -> Result<Judged, ProcessFault>
    requires read { unread.old.read ≤ most_transcript_bytes }
    requires at_hand { length unread.old.bytes < 65_536 }
    ensures takes { Takes unread.old.bytes unread.new.bytes unread.old.read unread.new.read
        (S.remaining source.old) (S.remaining source.new) [] }
    ensures found { IfOk result (AreHeadsTo kind unread.new.bytes (S.remaining source.new)) }
    ensures within { IfOk result (λ judged. end_of judged ≤ length unread.new.bytes) }
    ensures block { ReadsUpTo most_input_bytes unread.old.bytes unread.new.bytes }
    ensures reads { Reads result unread.new.read (S.failed_calls source.old)
        (S.failed_calls source.new) }
    ensures others { IfErr result (StopsReading (most_transcript_bytes < unread.new.read)
        (IsPreambleShort unread.new.bytes)) }
{
    let Found::Lines(first) = lines_end_within(unread, source, 0, 1, MOST_BYTES)? else {
        return Ok(Judged::Part(unread.ahead().len()));
    };
    if !is_same(&unread.ahead()[..first - 1], first_word(kind)) {
        return Ok(Judged::Part(first));
    }
    let Found::Lines(both) = lines_end_within(unread, source, first, 1, MOST_BYTES)? else {
        return Ok(Judged::Part(unread.ahead().len()));
    };
    let Ok(is_head) = heads_log(alloc, kind, &unread.ahead()[first..both - 1]) else {
        return Err(ProcessFault::OutOfMemory);
    };
    if !is_head {
        return Ok(Judged::Part(both));
    }
    Ok(Judged::Whole(both))
}

/// Reads until the whole preamble is ahead, or what tells that it isn't there.
fn preamble_end<S: Source>(
    alloc: Global,
    kind: ProcessKind,
    unread: &mut Unread,
    source: &mut S,
) -> Result<Judged, ProcessFault>
    requires read { unread.old.read ≤ most_transcript_bytes }
    requires at_hand { length unread.old.bytes < 65_536 }
    ensures takes { Takes unread.old.bytes unread.new.bytes unread.old.read unread.new.read
        (S.remaining source.old) (S.remaining source.new) [] }
    ensures found { IfOk result (IsPreambleTo kind unread.new.bytes (S.remaining source.new)) }
    ensures within { IfOk result (λ judged. end_of judged ≤ length unread.new.bytes) }
    ensures block { ReadsUpTo most_input_bytes unread.old.bytes unread.new.bytes }
    ensures reads { Reads result unread.new.read (S.failed_calls source.old)
        (S.failed_calls source.new) }
    ensures others { IfErr result (StopsReading (most_transcript_bytes < unread.new.read)
        (IsPreambleShort unread.new.bytes)) }
{
    let head = match heads_end(alloc, kind, unread, source)? {
        Judged::Whole(head) => head,
        Judged::Part(end) => return Ok(Judged::Part(end)),
    };
    let sheet = match section_end(unread, source, head, b"sheet ", 200_000)? {
        Judged::Whole(sheet) => sheet,
        Judged::Part(end) => return Ok(Judged::Part(end)),
    };
    let judged = section_end(unread, source, sheet, b"issuer ", 100)?;
    Ok(judged)
}

/// Reads the preamble, and takes it.
pub(crate) fn read_preamble<S: Source>(
    alloc: Global,
    kind: ProcessKind,
    unread: &mut Unread,
    source: &mut S,
) -> Result<Preamble, ProcessFault>
    requires read { unread.old.read ≤ most_transcript_bytes }
    requires at_hand { length unread.old.bytes < 65_536 }
    ensures read { IfOk result (λ p. HasRead kind p.own p.sheet p.issuer p.line
        unread.old.bytes unread.new.bytes (S.remaining source.old) (S.remaining source.new)) }
    ensures refused { IfErr result (λ fault. OfAll (RejectsPreamble kind fault)
        unread.old.bytes (S.remaining source.old)) }
    ensures reads { Reads result unread.new.read (S.failed_calls source.old)
        (S.failed_calls source.new) }
    ensures no_write { result ≢ Err ProcessFault.Write }
    ensures failed { IfErr result (λ fault. fault ≡ ProcessFault.Read
        → FallsShort IsPreambleShort unread.old.bytes unread.new.bytes
        (S.remaining source.old) (S.remaining source.new)) }
{
    unread.mark();
    let judged = preamble_end(alloc, kind, unread, source)?;
    let end = end_of(judged);
    match preamble_in(alloc, kind, &unread.ahead()[..end]) {
        Ok(preamble) => {
            unread.take(end);
            Ok(preamble)
        }
        Err(fault) => Err(fault_of_section(fault)),
    }
}
