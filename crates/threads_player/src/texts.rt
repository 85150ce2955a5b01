//! A run, and the report of it.

ghost use Rattle.std.specs.Prelude.{◌≡◌, ◌≢◌, Err, OnOk, IfOk, IfErr};
ghost use Rattle.std.specs.Io.KnownBytes.{Appends};
ghost use Rattle.counted_io.specs.Counts.{count_after};
ghost use Rattle.counted_io.specs.Writing.{AppendsPrefix};
ghost use Rattle.node_threads.specs.Runs.{Run as ModelRun};
ghost use Rattle.threads_player.specs.Faults.{tells_of_writer};
ghost use Rattle.threads_player.specs.Groups.{IsSize};
ghost use Rattle.threads_player.specs.Reports.{report_text};
ghost use Rattle.threads_player.specs.Runs.{IsRunOf, IsSheetRefused};

use crate::gates::Open;
use crate::plans::plan;
use crate::reports::report;
use crate::{Size, ThreadsFault};
use counted_io::{Sink, write_all};
use node_threads::{Run, run_group};
use std::alloc::Global;
use std::sync::Wait;
use std::thread::Threads;

/// A run of a group of that size.
fn run_of<R: Threads + Wait + Sync>(rt: &R, alloc: Global, size: Size) -> Result<Run, ThreadsFault>
    requires { IsSize size }
    ensures run { IfOk result (λ run. IsRunOf size run) }
    ensures refused { result ≡ Err ThreadsFault.Refused → IsSheetRefused }
    ensures unwritten { result ≢ Err ThreadsFault.Write }
{
    let plan = plan(alloc, size)?;
    match run_group(rt, alloc, plan, &Open) {
        Ok(run) => Ok(run),
        Err(fault) => Err(ThreadsFault::from(fault)),
    }
}

/// Writes the report of a run. That is by reference, for the prover's time alone (docs/DECISIONS.md).
fn write_report<W: Sink>(alloc: Global, run: &Run, writer: &mut W) -> Result<(), ThreadsFault>
    ensures written { OnOk result
        (Appends (W.contents writer.old) (W.contents writer.new) (report_text run.now)) }
    ensures prefix { result ≡ Err ThreadsFault.Write →
        AppendsPrefix (W.contents writer.old) (W.contents writer.new) (report_text run.now) }
    ensures unrefused { result ≢ Err ThreadsFault.Refused }
    ensures kept { IfErr result
        (λ fault. fault ≢ ThreadsFault.Write → writer.new ≡ writer.old) }
    ensures writes { W.failed_calls writer.new
        ≡ count_after (tells_of_writer result) (W.failed_calls writer.old) }
{
    let Ok(text) = report(alloc, run) else {
        return Err(ThreadsFault::OutOfMemory);
    };
    match write_all(writer, &text) {
        Ok(_) => Ok(()),
        Err(_) => Err(ThreadsFault::Write),
    }
}

/// Runs a group of that size, with the sample sheet and the sample issuer, and writes its report: for each period how
/// many lines its file has and how many nodes wrote one, and last how many entries the history has and how many
/// receipts the workers. After `Write`, one failed call, a proper prefix of it was written, and after any other fault
/// nothing.
pub fn threads_text<R: Threads + Wait + Sync, W: Sink>(
    rt: &R,
    alloc: Global,
    size: Size,
    writer: &mut W,
) -> Result<(), ThreadsFault>
    requires { IsSize size }

    // With Ok just the report of a run of such a group was written.
    ensures written { OnOk result ((run : ModelRun) × IsRunOf size run
        × Appends (W.contents writer.old) (W.contents writer.new) (report_text run)) }
    ensures prefix { result ≡ Err ThreadsFault.Write → (run : ModelRun) × IsRunOf size run
        × AppendsPrefix (W.contents writer.old) (W.contents writer.new) (report_text run) }
    ensures refused { result ≡ Err ThreadsFault.Refused → IsSheetRefused }
    ensures kept { IfErr result
        (λ fault. fault ≢ ThreadsFault.Write → writer.new ≡ writer.old) }

    // `Write` comes of one failed call, and no other call fails.
    ensures writes { W.failed_calls writer.new
        ≡ count_after (tells_of_writer result) (W.failed_calls writer.old) }
{
    let run = run_of(rt, alloc, size)?;
    write_report(alloc, &run, writer)
}
