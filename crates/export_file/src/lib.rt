//! The file of an export.
#![tactic(auto)]

ghost use Rattle.std.specs.Prelude.{◌≡◌, ◌++◌, Err, IfOk, OnOk, OnErr};
ghost use Rattle.std.specs.Io.KnownBytes.{Appends};
ghost use Rattle.std.specs.Thread.{IsSync};
ghost use Rattle.counted_io.specs.Counts.{Rises, count_after};
ghost use Rattle.counted_io.specs.Writing.{AppendsPrefix};
ghost use Rattle.metering_model.specs.Rows.{rows};
ghost use Rattle.metering_model.specs.Transcript.{file_of};
ghost use Rattle.metering_model.specs.World as model;
ghost use Rattle.focus_csv.specs.Rows.{joined};
ghost use Rattle.focus_csv.specs.Faults.{is_sink_fault};

use counted_io::Sink;
use focus_csv::{CsvFault, RowsBetween, put_file_in, rows_between};
use group_events::Snapshot;
use split::write_split;
use std::alloc::{AllocError, Global};
use std::thread::Threads;

mod held;
mod split;
mod whole;

pub use focus_csv::LineRoom;
pub use held::HeldText;
pub use whole::ExportRows;

/// What has the bytes of a period's file: a [`Snapshot`].
pub trait ExportFile {
    ghost taken: { Self → model.Snapshot };

    /// Writes the file: the header line, and a line for each row.
    ///
    /// `Write` is one failed call of the sink, and a proper prefix of the file was written. At `OutOfMemory` the sink
    /// is as it was.
    fn write_csv_split<R: Threads + Sync, W: Sink>(
        &self,
        rt: &R,
        alloc: Global,
        sink: &mut W,
    ) -> Result<(), CsvFault>
        requires { IsSync R.row }
        ensures written { OnOk result
            (Appends (W.contents sink.old) (W.contents sink.new) (file_of (taken self.now))) }
        ensures prefix { result ≡ Err CsvFault.Write
            → AppendsPrefix (W.contents sink.old) (W.contents sink.new) (file_of (taken self.now)) }
        ensures fault { result ≡ Err CsvFault.Write
            → Rises (W.failed_calls sink.old) (W.failed_calls sink.new) }
        ensures kept { result ≡ Err CsvFault.OutOfMemory → sink.new ≡ sink.old }
        ensures count { W.failed_calls sink.new
            ≡ count_after (is_sink_fault result) (W.failed_calls sink.old) };

    /// Appends the file, the same bytes that `write_csv_split` writes. An error is an allocation failure, and leaves
    /// the text's bytes as they were.
    fn put_csv(&self, alloc: Global, text: &mut Vec<u8>) -> Result<(), AllocError>
        ensures put { OnOk result (text.new.items ≡ text.old.items ++ file_of (taken self.now)) }
        ensures kept { OnErr result (text.new.items ≡ text.old.items) };
}

/// The rows of the file, batch by batch.
fn batches_of(alloc: Global, snapshot: &Snapshot) -> Result<RowsBetween<'_>, AllocError>
    ensures { IfOk result (λ batches. joined batches
        ≡ rows snapshot.now.sheet snapshot.now.issuer snapshot.now.batches snapshot.now.period
        snapshot.now.from snapshot.now.to) }
{
    let to = snapshot.to();
    rows_between(
        alloc,
        snapshot.batches(),
        snapshot.sheet(),
        snapshot.issuer(),
        snapshot.period(),
        snapshot.from(),
        to,
    )
}

impl ExportFile for Snapshot {
    ghost taken = { λ s. s };

    fn write_csv_split<R: Threads + Sync, W: Sink>(
        &self,
        rt: &R,
        alloc: Global,
        sink: &mut W,
    ) -> Result<(), CsvFault> {
        let Ok(batches) = batches_of(alloc, self) else {
            return Err(CsvFault::OutOfMemory);
        };
        write_split(rt, alloc, &batches, sink)
    }

    fn put_csv(&self, alloc: Global, text: &mut Vec<u8>) -> Result<(), AllocError> {
        let mut room = LineRoom::new();
        put_csv_in(alloc, &mut room, self, text)
    }
}

/// Appends the file of a snapshot, the same bytes that [`ExportFile::put_csv`] appends, whose lines are made in memory
/// that a file before has used and the next may use again. An error is an allocation failure, and leaves the text's bytes
/// as they were.
pub fn put_csv_in(
    alloc: Global,
    room: &mut LineRoom,
    snapshot: &Snapshot,
    text: &mut Vec<u8>,
) -> Result<(), AllocError>
    ensures put { OnOk result (text.new.items ≡ text.old.items ++ file_of snapshot.now) }
    ensures kept { OnErr result (text.new.items ≡ text.old.items) }
{
    let batches = batches_of(alloc, snapshot)?;
    put_file_in(alloc, room, &batches, text)
}
