//! `focusd rate`: the file of one batch.

ghost use Rattle.std.specs.Prelude.{◌+◌, ◌≡◌, ◌≢◌, ◌≤◌, List, ℕ, [], Ok, Err, Some, None, IfOk, IfErr, IfSome, IsOk, OnOk, drop, vec_len};
ghost use Rattle.std.specs.Arc.{arc_value};
ghost use Rattle.std.specs.Io.KnownBytes.{Appends};
ghost use Rattle.metering_model.specs.Limits.{most_agents, most_input_bytes};
ghost use Rattle.counted_io.specs.Streams.{UsesStreams};
ghost use Rattle.counted_io.specs.Writing.{AppendsPrefix};
ghost use Rattle.metering_model.specs.Cut.{zero_cut};
ghost use Rattle.metering_model.specs.Front.{front};
ghost use Rattle.metering_model.specs.Holding.{placed, put};
ghost use Rattle.metering_model.specs.JournalRules.{MeetsJournalRules, first_broken};
ghost use Rattle.metering_model.specs.Sheet as model;
ghost use Rattle.metering_model.specs.Rows.{rows};
ghost use Rattle.metering_model.specs.File.{file};
ghost use Rattle.metering_model.specs.declared.Refusal.{Refusal};
ghost use Rattle.batch_view.specs.Batches.{batch_of};
ghost use Rattle.input_sections.specs.declared.faults.ScheduleFault.{ScheduleFault};
ghost use Rattle.metering_model.specs.RatedAlone.{file_by, journaled_in};
ghost use Rattle.batch_player.specs.RateInput.{rated_file};
ghost use Rattle.batch_player.specs.Calls.{WritesAlone};
ghost use Rattle.batch_player.specs.Charges.{IsFileOf};
ghost use Rattle.batch_player.specs.Inner.Calls.{FailsAtWrites};
ghost use Rattle.program_input.specs.Faults.{tells_of_reader, tells_of_writer};

use crate::files::file_between;
use batch_view::{BatchView, Offer, OwnedBatch};
use counted_io::{Sink, Source, write_all};
use input_sections::{ScheduleFault, rate_input};
use journal_rules::{Store, first_broken_alone};
use metering_model::{BrokenRule, Refusal};
use period_cut::{Cut, Period};
use price_sheet::{Issuer, Sheet};
use program_input::{PlayFault, read_input};
use std::alloc::{AllocError, Global};
use std::sync::Arc;

/// The agents of a group.
const AGENTS: u8 = 64;

/// Reads a text that may begin with the sections of a sheet and of an issuer and ends with a batch, and writes the
/// batch's file in a billing period, from the zero cut to its front. Without their sections the base month is 2025-01,
/// there is no price, and the issuer is the sample. At most 16,777,217 bytes are read. After `Write`, one failed call,
/// a proper prefix of the file was written, and after any other fault nothing.
pub fn rate_text<R: Source, W: Sink>(
    alloc: Global,
    period: Period,
    reader: &mut R,
    writer: &mut W,
) -> Result<(), PlayFault>
    // With Ok just the file of the input was written.
    ensures file { OnOk result ((input text : List ℕ)
        × IsFileOf (R.remaining reader.old) period input text
        × Appends (W.contents writer.old) (W.contents writer.new) text) }

    // After `Write` a prefix of it was, and never all of it.
    ensures prefix { result ≡ Err PlayFault.Write → (input text : List ℕ)
        × IsFileOf (R.remaining reader.old) period input text
        × AppendsPrefix (W.contents writer.old) (W.contents writer.new) text }
    ensures refused { (refusal : Refusal) → result ≡ Err (PlayFault.Refused refusal)
        → IfSome (R.remaining reader.old)
        (λ input. rated_file period input ≡ Err (PlayFault.Refused refusal)) }

    // A section is refused for a rule, and never for want of memory.
    ensures section { (fault : ScheduleFault) → result ≡ Err (PlayFault.Schedule fault)
        → (fault ≢ ScheduleFault.OutOfMemory) × IfSome (R.remaining reader.old)
        (λ input. rated_file period input ≡ Err (PlayFault.Schedule fault)) }
    ensures kept { IfErr result (λ fault. fault ≢ PlayFault.Write → writer.new ≡ writer.old) }

    // With Ok nothing is left to read. `Read` and `Write` come of one failed call each, and no other call fails.
    ensures streams { UsesStreams (most_input_bytes + 1) (IsOk result)
        (tells_of_reader result) (tells_of_writer result)
        (R.remaining reader.old) (R.remaining reader.new)
        (R.failed_calls reader.old) (R.failed_calls reader.new)
        (W.failed_calls writer.old) (W.failed_calls writer.new) }
{
    let input = read_input(alloc, reader)?;
    rate_input_text(alloc, period, input, writer)
}

/// Writes the file of an input that was read.
fn rate_input_text<W: Sink>(
    alloc: Global,
    period: Period,
    input: Vec<u8>,
    writer: &mut W,
) -> Result<(), PlayFault>
    ensures file { OnOk result
        ((text : List ℕ) × IsFileOf (Some input.items) period input.items text
        × Appends (W.contents writer.old) (W.contents writer.new) text) }
    ensures prefix { result ≡ Err PlayFault.Write
        → (text : List ℕ) × IsFileOf (Some input.items) period input.items text
        × AppendsPrefix (W.contents writer.old) (W.contents writer.new) text }
    ensures refused { (refusal : Refusal) → result ≡ Err (PlayFault.Refused refusal)
        → rated_file period input.items ≡ Err (PlayFault.Refused refusal) }
    ensures section { (fault : ScheduleFault) → result ≡ Err (PlayFault.Schedule fault)
        → (fault ≢ ScheduleFault.OutOfMemory)
        × (rated_file period input.items ≡ Err (PlayFault.Schedule fault)) }
    ensures kept { IfErr result (λ fault. fault ≢ PlayFault.Write → writer.new ≡ writer.old) }
    ensures calls { FailsAtWrites result (W.failed_calls writer.old)
        (W.failed_calls writer.new) }
{
    let given = match rate_input(alloc, &input) {
        Ok(given) => given,
        Err(fault) => return Err(PlayFault::from(fault)),
    };
    rate_behind(
        alloc,
        period,
        &given.sheet,
        &given.issuer,
        input,
        given.batch_from,
        writer,
    )
}

/// Writes the file of one batch in a billing period, from the zero cut to its front, by a sheet and an issuer.
/// `Refused` is why a group of 64 agents in which nothing has happened refuses the batch; `OutOfMemory` comes only of a
/// batch that such a group journals. No other fault is returned but `Write`, one failed call, after which a proper
/// prefix of the file was written; after the others nothing was.
pub fn rate_batch<W: Sink>(
    alloc: Global,
    period: Period,
    sheet: &Sheet,
    issuer: &Issuer,
    input: Vec<u8>,
    writer: &mut W,
) -> Result<(), PlayFault>
    ensures file { OnOk result
        ((text : List ℕ) × (file_by sheet.now issuer.now period input.items ≡ Ok text)
        × Appends (W.contents writer.old) (W.contents writer.new) text) }
    ensures prefix { result ≡ Err PlayFault.Write
        → (text : List ℕ) × (file_by sheet.now issuer.now period input.items ≡ Ok text)
        × AppendsPrefix (W.contents writer.old) (W.contents writer.new) text }
    ensures refused { (refusal : Refusal) → result ≡ Err (PlayFault.Refused refusal)
        → file_by sheet.now issuer.now period input.items ≡ Err refusal }
    ensures memory { result ≡ Err PlayFault.OutOfMemory
        → journaled_in sheet.now issuer.now input.items ≡ Ok (batch_of input.items) }
    ensures kept { IfErr result (λ fault. fault ≢ PlayFault.Write → writer.new ≡ writer.old) }

    // `Write` comes of one failed call, and no other call fails.
    ensures calls { WritesAlone result (W.failed_calls writer.old) (W.failed_calls writer.new) }
{
    rate_behind(alloc, period, sheet, issuer, input, 0, writer)
}

/// The same of the batch that an input is from a place on, which stays where it is.
fn rate_behind<W: Sink>(
    alloc: Global,
    period: Period,
    sheet: &Sheet,
    issuer: &Issuer,
    input: Vec<u8>,
    from: usize,
    writer: &mut W,
) -> Result<(), PlayFault>
    requires { from ≤ vec_len input }
    ensures file { OnOk result
        ((text : List ℕ)
        × (file_by sheet.now issuer.now period (drop from input.items) ≡ Ok text)
        × Appends (W.contents writer.old) (W.contents writer.new) text) }
    ensures prefix { result ≡ Err PlayFault.Write
        → (text : List ℕ)
        × (file_by sheet.now issuer.now period (drop from input.items) ≡ Ok text)
        × AppendsPrefix (W.contents writer.old) (W.contents writer.new) text }
    ensures refused { (refusal : Refusal) → result ≡ Err (PlayFault.Refused refusal)
        → file_by sheet.now issuer.now period (drop from input.items) ≡ Err refusal }
    ensures memory { result ≡ Err PlayFault.OutOfMemory
        → journaled_in sheet.now issuer.now (drop from input.items)
        ≡ Ok (batch_of (drop from input.items)) }
    ensures kept { IfErr result (λ fault. fault ≢ PlayFault.Write → writer.new ≡ writer.old) }
    ensures calls { WritesAlone result (W.failed_calls writer.old) (W.failed_calls writer.new) }
{
    let to = input.len();
    let input = match Arc::new(alloc, input) {
        Ok(shared) => shared,
        Err(unkept) => return Err(fault_of_unkept(sheet, &unkept.value[from..])),
    };
    let batch = match Offer::read_within(alloc, &input, from, to) {
        Ok(Offer::Good(batch)) => batch,
        Ok(Offer::Bad(fault)) => return Err(PlayFault::Refused(Refusal::BadBatch(fault))),
        Err(_) => return Err(fault_of_unkept(sheet, &input[from..])),
    };
    // The batch keeps it, until its file is made.
    drop(input);
    let text = file_of_batch(alloc, period, sheet, issuer, batch)?;
    match write_all(writer, &text) {
        Ok(()) => Ok(()),
        Err(_) => Err(PlayFault::Write),
    }
}

/// What is answered to a text for which there is no memory: why it is refused, if it is. None is taken to find out.
fn fault_of_unkept(sheet: &Sheet, text: &[u8]) -> PlayFault
    ensures refused { (refusal : Refusal) → result ≡ PlayFault.Refused refusal
        → (issuer : model.Issuer)
        → journaled_in sheet.now issuer text.now ≡ Err refusal }
    ensures memory { result ≡ PlayFault.OutOfMemory → (issuer : model.Issuer)
        → journaled_in sheet.now issuer text.now ≡ Ok (batch_of text.now) }
    ensures others { (result ≢ PlayFault.Read) × (result ≢ PlayFault.Write)
        × ((fault : ScheduleFault) → result ≢ PlayFault.Schedule fault) }
{
    let view = match BatchView::parse(text) {
        Ok(view) => view,
        Err(fault) => return PlayFault::Refused(Refusal::BadBatch(fault)),
    };
    match first_refusal(sheet, &view) {
        Some(refusal) => PlayFault::Refused(refusal),
        None => PlayFault::OutOfMemory,
    }
}

/// The file of a batch, or why it is refused. That is asked before any memory is.
fn file_of_batch(
    alloc: Global,
    period: Period,
    sheet: &Sheet,
    issuer: &Issuer,
    batch: Arc<OwnedBatch>,
) -> Result<Vec<u8>, PlayFault>
    ensures file { IfOk result
        (λ text. file_by sheet.now issuer.now period (arc_value batch) ≡ Ok text.items) }
    ensures refused { (refusal : Refusal) → result ≡ Err (PlayFault.Refused refusal)
        → file_by sheet.now issuer.now period (arc_value batch) ≡ Err refusal }
    ensures memory { result ≡ Err PlayFault.OutOfMemory
        → journaled_in sheet.now issuer.now (arc_value batch) ≡ Ok (batch_of (arc_value batch)) }
    ensures others { (result ≢ Err PlayFault.Read) × (result ≢ Err PlayFault.Write)
        × ((fault : ScheduleFault) → result ≢ Err (PlayFault.Schedule fault)) }
{
    if let Some(refusal) = first_refusal(sheet, &batch.view()) {
        return Err(PlayFault::Refused(refusal));
    }
    match file_of_journaled(alloc, period, sheet, issuer, batch) {
        Ok(text) => Ok(text),
        Err(_) => Err(PlayFault::OutOfMemory),
    }
}

/// Why a group of 64 agents in which nothing has happened does not journal the batch; None where it does.
pub fn first_refusal(sheet: &Sheet, view: &BatchView<'_>) -> Option<Refusal>
    ensures taken { result ≡ None → ((batch_of view.now).seq ≡ 1)
        × (first_broken sheet.now (put [] (batch_of view.now)) (placed (batch_of view.now))
        ≡ None) }
    ensures journaled { result ≡ None → (issuer : model.Issuer)
        → journaled_in sheet.now issuer view.now ≡ Ok (batch_of view.now) }
    ensures refused { (refusal : Refusal) → result ≡ Some refusal → (issuer : model.Issuer)
        → journaled_in sheet.now issuer view.now ≡ Err refusal }
{
    // For the proof alone: its clause says that the bytes are a batch.
    let _bytes = view.bytes();
    if view.seq() != 1 {
        return Some(Refusal::WrongSeq { wanted: 1 });
    }
    match first_broken_alone(sheet, view) {
        Some(BrokenRule::BadTarget) => Some(Refusal::BadTarget),
        Some(BrokenRule::Unpriced) => Some(Refusal::Unpriced),
        None => None,
    }
}

/// The file of a batch that such a group journals.
fn file_of_journaled(
    alloc: Global,
    period: Period,
    sheet: &Sheet,
    issuer: &Issuer,
    batch: Arc<OwnedBatch>,
) -> Result<Vec<u8>, AllocError>
    requires first { (batch_of (arc_value batch)).seq ≡ 1 }
    requires fit { first_broken sheet.now (put [] (batch_of (arc_value batch)))
        (placed (batch_of (arc_value batch))) ≡ None }
    ensures { IfOk result (λ text. file_by sheet.now issuer.now period (arc_value batch)
        ≡ Ok text.items) }
{
    // For the proof alone: its clause says that the bytes are a batch.
    let _bytes = batch.bytes();
    let mut store = Store::new(alloc, AGENTS)?;
    store.put(batch)?;
    file_to_front(alloc, &store, sheet, issuer, period)
}

/// The file of all that a store has, from the zero cut to its front.
fn file_to_front(
    alloc: Global,
    store: &Store,
    sheet: &Sheet,
    issuer: &Issuer,
    period: Period,
) -> Result<Vec<u8>, AllocError>
    requires agents { store.now.agents ≡ most_agents }
    requires met { MeetsJournalRules sheet.now store.now.batches }
    ensures { IfOk result (λ text. text.items
        ≡ file (rows sheet.now issuer.now store.now.batches period
        (zero_cut most_agents) (front sheet.now.base store.now.batches
        (zero_cut most_agents) period))) }
{
    let from = Cut::zero(alloc, AGENTS)?;
    let to = store.due_front(alloc, &from, period, sheet.base_month())?;
    file_between(alloc, store, sheet, issuer, period, &from, &to)
}
