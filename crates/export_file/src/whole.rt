//! The rows of an export, and its file written batch by batch: for callers of the library. No program calls what stands
//! here.

ghost use Rattle.std.specs.Prelude.{◌≡◌, Err, IfOk, OnOk};
ghost use Rattle.std.specs.Io.KnownBytes.{Appends};
ghost use Rattle.counted_io.specs.Counts.{Rises, count_after};
ghost use Rattle.counted_io.specs.Writing.{AppendsPrefix, AppendsSome};
ghost use Rattle.metering_model.specs.Rows.{rows};
ghost use Rattle.metering_model.specs.Transcript.{file_of};
ghost use Rattle.metering_model.specs.World as model;
ghost use Rattle.focus_csv.specs.Rows.{joined};
ghost use Rattle.focus_csv.specs.Faults.{is_sink_fault};

use crate::batches_of;
use counted_io::Sink;
use focus_csv::{CsvFault, RowsBetween, write_rows};
use group_events::Snapshot;
use std::alloc::{AllocError, Global};

/// What has the rows of a period's file, and can write it batch by batch: a [`Snapshot`].
pub trait ExportRows {
    ghost exported: { Self → model.Snapshot };

    /// The rows of the file, batch by batch, in journal order. An error is an allocation failure.
    fn rows(&self, alloc: Global) -> Result<RowsBetween<'_>, AllocError>
        ensures { IfOk result (λ batches. joined batches
            ≡ rows (exported self.now).sheet (exported self.now).issuer (exported self.now).batches
            (exported self.now).period
            (exported self.now).from (exported self.now).to) };

    /// Writes the file: the header line, and a line for each row.
    ///
    /// `Write` is one failed call of the sink, and a proper prefix of the file was written. At `OutOfMemory` no call
    /// failed, and a prefix of the file was written, perhaps none or all of it.
    fn write_csv<W: Sink>(&self, alloc: Global, sink: &mut W) -> Result<(), CsvFault>
        ensures written { OnOk result
            (Appends (W.contents sink.old) (W.contents sink.new) (file_of (exported self.now))) }
        ensures prefix { result ≡ Err CsvFault.Write
            → AppendsPrefix (W.contents sink.old) (W.contents sink.new)
            (file_of (exported self.now)) }
        ensures fault { result ≡ Err CsvFault.Write
            → Rises (W.failed_calls sink.old) (W.failed_calls sink.new) }
        ensures memory { result ≡ Err CsvFault.OutOfMemory
            → AppendsSome (W.contents sink.old) (W.contents sink.new)
            (file_of (exported self.now)) }
        ensures count { W.failed_calls sink.new
            ≡ count_after (is_sink_fault result) (W.failed_calls sink.old) };
}

impl ExportRows for Snapshot {
    ghost exported = { λ s. s };

    fn rows(&self, alloc: Global) -> Result<RowsBetween<'_>, AllocError> {
        batches_of(alloc, self)
    }

    fn write_csv<W: Sink>(&self, alloc: Global, sink: &mut W) -> Result<(), CsvFault> {
        let Ok(batches) = batches_of(alloc, self) else {
            return Err(CsvFault::OutOfMemory);
        };
        write_rows(alloc, &batches, sink)
    }
}
