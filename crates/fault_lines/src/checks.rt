//! What `check` does with an input, of whatever kind: all of it is read, and what is wrong with it is written, and then of what it is
//! warned.

ghost use Rattle.std.specs.Prelude.{◌≡◌, ◌⊎◌, [], ◌++◌, ℕ, List, Err, IfOk, IfErr, OnOk};
ghost use Rattle.std.specs.Arc.{arc_value};
ghost use Rattle.std.specs.Io.KnownBytes.{Appends};
ghost use Rattle.counted_io.specs.Counts.{count_after};
ghost use Rattle.counted_io.specs.Writing.{AppendsPrefix};
ghost use Rattle.metering_model.specs.Transcript.{line_count};
ghost use Rattle.program_input.specs.Faults.{tells_of_writer};
ghost use Rattle.fault_lines.specs.Checked.{Checks, IsSaid, SaysLines, SaysTooLong};

use byte_text::line_count;
use counted_io::{Sink, Source, write_all};
use program_input::{PlayFault, read_input};
use std::alloc::{AllocError, Global};
use std::sync::Arc;

/// What an input is checked as.
pub trait Check {
    /// What is wrong with an input: lines, or nothing. No clause asks that each thing has one line.
    ghost said_of: { Self → List ℕ → List ℕ };

    /// Of what it is warned: lines, or nothing.
    ghost warned_of: { Self → List ℕ → List ℕ };

    /// Whatever is said has a line.
    ghost lines: { (c : Self) → SaysLines (said_of c) };

    /// An input of more than 16,777,216 bytes is not read to its end, so of any such that alone is said.
    ghost long: { (c : Self) → SaysTooLong (said_of c) (warned_of c) };

    /// Appends what is wrong with an input to a text, and to another of what it is warned. The input is shared, so that what
    /// is read of it need not be copied. An error is an allocation failure, after which a part may have been appended.
    fn put(
        &self,
        alloc: Global,
        input: &Arc<Vec<u8>>,
        told: &mut Vec<u8>,
        warnings: &mut Vec<u8>,
    ) -> Result<(), AllocError>
        ensures said { OnOk result
            (told.new.items ≡ told.old.items ++ said_of self.now (arc_value input.now).items) }
        ensures warned { OnOk result (warnings.new.items
            ≡ warnings.old.items ++ warned_of self.now (arc_value input.now).items) };
}

/// Writes a text, of which so many lines are counted, and answers how many.
fn write_said<W: Sink>(text: &[u8], count: u64, writer: &mut W) -> Result<u64, PlayFault>
    ensures said { IfOk result
        (λ answer. Appends (W.contents writer.old) (W.contents writer.new) text.now
        × (answer ≡ count)) }
    ensures prefix { result ≡ Err PlayFault.Write
        → AppendsPrefix (W.contents writer.old) (W.contents writer.new) text.now }
    ensures fault { IfErr result (λ fault. fault ≡ PlayFault.Write) }
    ensures writes { W.failed_calls writer.new
        ≡ count_after (tells_of_writer result) (W.failed_calls writer.old) }
{
    match write_all(writer, text) {
        Ok(()) => Ok(count),
        Err(_) => Err(PlayFault::Write),
    }
}

/// Puts what is said of an input into an empty text, and behind it of what it is warned, for which there is one too. It
/// answers how many lines the first has.
fn put_said<C: Check>(
    alloc: Global,
    check: &C,
    input: &Arc<Vec<u8>>,
    said: &mut Vec<u8>,
    warned: &mut Vec<u8>,
) -> Result<u64, AllocError>
    requires { (said.old.items ≡ []) × (warned.old.items ≡ []) }
    ensures said { OnOk result (said.new.items ≡ C.said_of check.now (arc_value input.now).items
        ++ C.warned_of check.now (arc_value input.now).items) }
    ensures count { IfOk result
        (λ count. count ≡ line_count (C.said_of check.now (arc_value input.now).items)) }
{
    let Ok(()) = check.put(alloc, input, said, warned) else {
        return Err(AllocError);
    };
    // A warning is no fault: it stands behind them, and is not counted.
    let count = line_count(said) as u64;
    match said.extend_from_slice(warned) {
        Ok(()) => Ok(count),
        Err(error) => Err(error),
    }
}

/// The same of an input that is shared for it.
fn put_shared<C: Check>(
    alloc: Global,
    check: &C,
    input: Vec<u8>,
    said: &mut Vec<u8>,
) -> Result<u64, AllocError>
    requires { said.old.items ≡ [] }
    ensures said { OnOk result (said.new.items
        ≡ C.said_of check.now input.items ++ C.warned_of check.now input.items) }
    ensures count { IfOk result (λ count. count ≡ line_count (C.said_of check.now input.items)) }
{
    let Ok(input) = Arc::new(alloc, input) else {
        return Err(AllocError);
    };
    let mut warned = Vec::new(alloc);
    put_said(alloc, check, &input, said, &mut warned)
}

/// Writes what is said of an input and then of what it is warned, all at once: at want of memory nothing.
fn write_checked<C: Check, W: Sink>(
    alloc: Global,
    check: &C,
    input: Vec<u8>,
    writer: &mut W,
) -> Result<u64, PlayFault>
    ensures said { IfOk result
        (λ count. Appends (W.contents writer.old) (W.contents writer.new)
        (C.said_of check.now input.items ++ C.warned_of check.now input.items)
        × (count ≡ line_count (C.said_of check.now input.items))) }
    ensures prefix { result ≡ Err PlayFault.Write
        → AppendsPrefix (W.contents writer.old) (W.contents writer.new)
        (C.said_of check.now input.items ++ C.warned_of check.now input.items) }
    ensures fault { IfErr result
        (λ fault. (fault ≡ PlayFault.Write) ⊎ (fault ≡ PlayFault.OutOfMemory)) }
    ensures memory { result ≡ Err PlayFault.OutOfMemory → writer.new ≡ writer.old }
    ensures writes { W.failed_calls writer.new
        ≡ count_after (tells_of_writer result) (W.failed_calls writer.old) }
{
    let mut said = Vec::new(alloc);
    match put_shared(alloc, check, input, &mut said) {
        Ok(count) => write_said(&said, count, writer),
        Err(_) => Err(PlayFault::OutOfMemory),
    }
}

/// Reads an input, and writes what is said to be wrong with it, and then of what it is warned, all at once. It answers how many
/// lines the first has.
///
/// At most 16,777,217 bytes are read. After `Write` a prefix of the lines was written, and after any other fault nothing.
/// Neither `Schedule` nor `Refused` is ever answered.
pub fn check_input<C: Check, R: Source, W: Sink>(
    alloc: Global,
    check: &C,
    reader: &mut R,
    writer: &mut W,
) -> Result<u64, PlayFault>
    ensures { Checks (IsSaid (C.said_of check.now) (C.warned_of check.now))
        result writer.old writer.new
        (R.remaining reader.old) (R.remaining reader.new)
        (W.contents writer.old) (W.contents writer.new)
        (R.failed_calls reader.old) (R.failed_calls reader.new)
        (W.failed_calls writer.old) (W.failed_calls writer.new) }
{
    match read_input(alloc, reader) {
        Ok(input) => write_checked(alloc, check, input, writer),
        Err(PlayFault::Schedule(_)) => write_said(b"line 1: L8\n", 1, writer),
        Err(fault) => Err(fault),
    }
}
