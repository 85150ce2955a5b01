//! Texts that are written to a sink.

ghost use Rattle.std.specs.Prelude.{◌≡◌, IfErr, OnOk, OnErr};
ghost use Rattle.std.specs.Io.KnownBytes.{Appends};
ghost use Rattle.counted_io.specs.Counts.{Rises, count_after};
ghost use Rattle.counted_io.specs.Writing.{AppendsPrefix};
ghost use Rattle.focus_csv.specs.Faults.{is_sink_fault};

use crate::CsvFault;
use counted_io::{Sink, write_all};

/// Writes a text. Its only fault is a failed call of the sink.
pub(crate) fn write_text<W: Sink>(sink: &mut W, text: &[u8]) -> Result<(), CsvFault>
    ensures written { OnOk result (Appends (W.contents sink.old) (W.contents sink.new) text.now) }
    ensures prefix { OnErr result
        (AppendsPrefix (W.contents sink.old) (W.contents sink.new) text.now) }
    ensures write { IfErr result (λ fault. fault ≡ CsvFault.Write) }
    ensures fault { OnErr result (Rises (W.failed_calls sink.old) (W.failed_calls sink.new)) }
    ensures count { W.failed_calls sink.new
        ≡ count_after (is_sink_fault result) (W.failed_calls sink.old) }
{
    match write_all(sink, text) {
        Ok(()) => Ok(()),
        Err(_) => Err(CsvFault::Write),
    }
}
