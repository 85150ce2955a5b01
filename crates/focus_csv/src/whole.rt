//! Rows in memory, and their text made whole: for callers of the library. No program calls what stands here.

ghost use Rattle.std.specs.Prelude.{◌≡◌, ◌≢◌, ◌++◌, map, Err, IfOk, IfErr, OnOk};
ghost use Rattle.std.specs.List.{flat_map};
ghost use Rattle.std.specs.Io.KnownBytes.{Appends};
ghost use Rattle.counted_io.specs.Counts.{Rises, count_after};
ghost use Rattle.counted_io.specs.Writing.{AppendsPrefix};
ghost use Rattle.metering_model.specs.File.{file, row_text};
ghost use Rattle.focus_row.specs.Rows.{model_row};
ghost use Rattle.focus_csv.specs.Faults.{is_sink_fault};

use crate::CsvFault;
use crate::lines::{header_text, put_lines};
use crate::pieces::LinePieces;
use crate::rooms::drop_pieces;
use crate::writing::write_text;
use counted_io::Sink;
use focus_row::FocusRow;
use std::alloc::{AllocError, Global};

/// Appends the lines of the rows, in order.
fn put_all(alloc: Global, rows: &[FocusRow<'_>], text: &mut Vec<u8>) -> Result<(), AllocError>
    ensures { OnOk result
        (text.new.items ≡ text.old.items ++ flat_map row_text (map model_row rows.now)) }
{
    let Some(first) = rows.first() else {
        return Ok(());
    };
    let mut pieces = LinePieces::new(alloc);
    let result = put_lines(&mut pieces, first, rows, text);
    drop_pieces(Some(pieces));
    result
}

/// A head, and after it the lines of the rows, in order.
fn lines_behind(alloc: Global, head: &[u8], rows: &[FocusRow<'_>]) -> Result<Vec<u8>, AllocError>
    ensures { IfOk result (λ v. v.items ≡ head.now ++ flat_map row_text (map model_row rows.now)) }
{
    let mut text = Vec::new(alloc);
    text.extend_from_slice(head)?;
    put_all(alloc, rows, &mut text)?;
    Ok(text)
}

/// The text of the rows without a header line: a line for each row, in order. `header_text`, followed by the texts of
/// some rows after others, is a file of all of them. The only error is `OutOfMemory`.
pub fn row_texts(alloc: Global, rows: &[FocusRow<'_>]) -> Result<Vec<u8>, CsvFault>
    ensures text { IfOk result (λ v. v.items ≡ flat_map row_text (map model_row rows.now)) }
    ensures fault { IfErr result (λ fault. fault ≢ CsvFault.Write) }
{
    match lines_behind(alloc, &[], rows) {
        Ok(text) => Ok(text),
        Err(_) => Err(CsvFault::OutOfMemory),
    }
}

/// The bytes of the file of the rows.
fn file_bytes(alloc: Global, rows: &[FocusRow<'_>]) -> Result<Vec<u8>, AllocError>
    ensures { IfOk result (λ v. v.items ≡ file (map model_row rows.now)) }
{
    lines_behind(alloc, header_text(), rows)
}

/// Writes the file of the rows: the header line, and a line for each row in order.
///
/// `Write` is one failed call of the sink, and a proper prefix of the file was written. At `OutOfMemory` the sink is as
/// it was.
pub fn write_file<W: Sink>(
    alloc: Global,
    rows: &[FocusRow<'_>],
    sink: &mut W,
) -> Result<(), CsvFault>
    ensures written { OnOk result
        (Appends (W.contents sink.old) (W.contents sink.new) (file (map model_row rows.now))) }
    ensures prefix { result ≡ Err CsvFault.Write
        → AppendsPrefix (W.contents sink.old) (W.contents sink.new)
        (file (map model_row rows.now)) }
    ensures fault { result ≡ Err CsvFault.Write
        → Rises (W.failed_calls sink.old) (W.failed_calls sink.new) }
    ensures count { W.failed_calls sink.new
        ≡ count_after (is_sink_fault result) (W.failed_calls sink.old) }
    ensures kept { IfErr result (λ fault. fault ≢ CsvFault.Write → sink.new ≡ sink.old) }
{
    let Ok(bytes) = file_bytes(alloc, rows) else {
        return Err(CsvFault::OutOfMemory);
    };
    write_text(sink, bytes.as_slice())
}
