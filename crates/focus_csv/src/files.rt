//! The file of rows between two cuts, batch by batch.

ghost use Rattle.std.specs.Prelude.{◌≡◌, ◌<◌, ◌≤◌, ◌-◌, [], ◌++◌, Err, length, take, drop, slice_index_or, OnOk, OnErr};
ghost use Rattle.std.specs.List.{flat_map};
ghost use Rattle.std.specs.Io.KnownBytes.{Appends};
ghost use Rattle.counted_io.specs.Counts.{Rises, count_after};
ghost use Rattle.counted_io.specs.Writing.{AppendsPrefix, AppendsSome};
ghost use Rattle.metering_model.specs.File.{file, row_text};
ghost use Rattle.focus_row.specs.Rows.{joined};
ghost use Rattle.focus_csv.specs.Faults.{is_sink_fault};
ghost use Rattle.focus_csv.specs.Rows.{batch_lines};
ghost use Rattle.focus_csv.specs.Inner.Beginnings.{BeginsWith};

use crate::CsvFault;
use crate::lines::{HeldLine, header_text};
use crate::pieces::LinePieces;
use crate::rooms::{LineRoom, drop_pieces};
use crate::writing::write_text;
use counted_io::Sink;
use focus_row::{BatchRows, FocusRow, RowsBetween};
use std::alloc::{AllocError, Global};

/// Appends the lines of the walk's next rows, which are put where some may stand. At an allocation failure the text is
/// as before, or has some of the lines after it.
fn put_part<'a>(
    walk: &mut BatchRows<'_, 'a>,
    held: &mut HeldLine<'a>,
    rows: &mut Vec<FocusRow<'a>>,
    text: &mut Vec<u8>,
) -> Result<(), AllocError>
    ensures put { OnOk result
        (text.new.items ++ flat_map row_text walk.new.rows ≡ text.old.items
        ++ flat_map row_text walk.old.rows) }
    ensures fewer { OnOk result (0 < walk.old.records → walk.new.records < walk.old.records) }
    ensures begins { BeginsWith text.new.items text.old.items }
{
    walk.next_rows(rows)?;
    held.put_lines(rows, text)?;
    Ok(())
}

/// Appends the lines of all rows that the walk has left, a part of them at a time. At an allocation failure the text is
/// as before, or has some of the lines after it.
fn put_walk<'a>(
    walk: &mut BatchRows<'_, 'a>,
    held: &mut HeldLine<'a>,
    rows: &mut Vec<FocusRow<'a>>,
    text: &mut Vec<u8>,
) -> Result<(), AllocError>
    ensures put { OnOk result (text.new.items ≡ text.old.items ++ flat_map row_text walk.old.rows) }
    ensures begins { OnErr result (BeginsWith text.new.items text.old.items) }
{
    while !walk.is_done() {
        put_part(walk, held, rows, text)?;
    }
    Ok(())
}

/// Appends the lines of the batch of that number, whose rows are put where some may stand. At an allocation failure the
/// text is as before, or has some of the lines after it.
fn put_batch<'a>(
    batches: &RowsBetween<'a>,
    k: usize,
    held: &mut HeldLine<'a>,
    rows: &mut Vec<FocusRow<'a>>,
    text: &mut Vec<u8>,
) -> Result<(), AllocError>
    requires { k < length batches.now }
    ensures put { OnOk result
        (text.new.items ≡ text.old.items ++ flat_map row_text (slice_index_or batches.now k [])) }
    ensures begins { OnErr result (BeginsWith text.new.items text.old.items) }
{
    let mut walk = batches.walk(k);
    put_walk(&mut walk, held, rows, text)?;
    Ok(())
}

/// Appends the lines of the batches from one number to before another, in order. At an allocation failure the text is
/// as before, or has some of the lines after it.
fn put_between<'a>(
    batches: &RowsBetween<'a>,
    from: usize,
    to: usize,
    held: &mut HeldLine<'a>,
    rows: &mut Vec<FocusRow<'a>>,
    text: &mut Vec<u8>,
) -> Result<(), AllocError>
    requires order { from ≤ to }
    requires within { to ≤ length batches.now }
    ensures put { OnOk result
        (text.new.items ≡ text.old.items
        ++ batch_lines (take (to - from) (drop from batches.now))) }
    ensures begins { OnErr result (BeginsWith text.new.items text.old.items) }
{
    for k in from..to {
        put_batch(batches, k, held, rows, text)?;
    }
    Ok(())
}

/// The same, made in memory that a file before has used and the next may use again.
fn put_each(
    alloc: Global,
    room: &mut LineRoom,
    batches: &RowsBetween<'_>,
    from: usize,
    to: usize,
    text: &mut Vec<u8>,
) -> Result<(), AllocError>
    requires order { from ≤ to }
    requires within { to ≤ length batches.now }
    ensures put { OnOk result
        (text.new.items ≡ text.old.items
        ++ batch_lines (take (to - from) (drop from batches.now))) }
    ensures begins { OnErr result (BeginsWith text.new.items text.old.items) }
{
    let mut held = HeldLine::of(room.take(alloc));
    let mut rows = Vec::new(alloc);
    let result = put_between(batches, from, to, &mut held, &mut rows, text);
    room.give_back(result.is_ok(), held.into_pieces());
    result
}

/// Appends the lines of the batches from one number to before another, in order. An error is an allocation failure, and
/// leaves the text's bytes as they were.
pub fn put_batches(
    alloc: Global,
    batches: &RowsBetween<'_>,
    from: usize,
    to: usize,
    text: &mut Vec<u8>,
) -> Result<(), AllocError>
    requires order { from ≤ to }
    requires within { to ≤ length batches.now }
    ensures put { OnOk result
        (text.new.items ≡ text.old.items
        ++ batch_lines (take (to - from) (drop from batches.now))) }
    ensures kept { OnErr result (text.new.items ≡ text.old.items) }
{
    let before = text.len();
    let mut room = LineRoom::new();
    let result = put_each(alloc, &mut room, batches, from, to, text);
    drop_pieces(room.into_pieces());
    match result {
        Ok(()) => Ok(()),
        Err(error) => {
            text.truncate(before);
            Err(error)
        }
    }
}

/// Appends the file of rows: the header line, and a line for each row in order. An error is an allocation failure, and
/// leaves the text's bytes as they were.
pub fn put_file(
    alloc: Global,
    batches: &RowsBetween<'_>,
    text: &mut Vec<u8>,
) -> Result<(), AllocError>
    ensures put { OnOk result (text.new.items ≡ text.old.items ++ file (joined batches.now)) }
    ensures kept { OnErr result (text.new.items ≡ text.old.items) }
{
    let mut room = LineRoom::new();
    let result = put_file_in(alloc, &mut room, batches, text);
    drop_pieces(room.into_pieces());
    result
}

/// Appends the file of rows, the same bytes that [`put_file`] appends, whose lines are made in memory that a file before
/// has used and the next may use again. An error is an allocation failure, and leaves the text's bytes as they were.
pub fn put_file_in(
    alloc: Global,
    room: &mut LineRoom,
    batches: &RowsBetween<'_>,
    text: &mut Vec<u8>,
) -> Result<(), AllocError>
    ensures put { OnOk result (text.new.items ≡ text.old.items ++ file (joined batches.now)) }
    ensures kept { OnErr result (text.new.items ≡ text.old.items) }
{
    let before = text.len();
    text.extend_from_slice(header_text())?;
    match put_each(alloc, room, batches, 0, batches.batches(), text) {
        Ok(()) => Ok(()),
        Err(error) => {
            text.truncate(before);
            Err(error)
        }
    }
}

/// Writes the text that a file begins with, and behind it the lines of the batches. Rows are put where some may stand.
fn write_behind<'a, W: Sink>(
    batches: &RowsBetween<'a>,
    held: &mut HeldLine<'a>,
    rows: &mut Vec<FocusRow<'a>>,
    text: &mut Vec<u8>,
    sink: &mut W,
) -> Result<(), CsvFault>
    requires { text.old.items ++ batch_lines batches.now ≡ file (joined batches.now) }
    ensures written { OnOk result
        (Appends (W.contents sink.old) (W.contents sink.new) (file (joined batches.now))) }
    ensures prefix { result ≡ Err CsvFault.Write
        → AppendsPrefix (W.contents sink.old) (W.contents sink.new) (file (joined batches.now)) }
    ensures fault { result ≡ Err CsvFault.Write
        → Rises (W.failed_calls sink.old) (W.failed_calls sink.new) }
    ensures memory { result ≡ Err CsvFault.OutOfMemory
        → AppendsSome (W.contents sink.old) (W.contents sink.new) (file (joined batches.now)) }
    ensures count { W.failed_calls sink.new
        ≡ count_after (is_sink_fault result) (W.failed_calls sink.old) }
{
    for k in 0..batches.batches() {
        if let Err(fault) = write_text(sink, text.as_slice()) {
            return Err(fault);
        }
        text.clear();
        let Ok(()) = put_batch(batches, k, held, rows, text) else {
            return Err(CsvFault::OutOfMemory);
        };
    }
    write_text(sink, text.as_slice())
}

/// Writes the file of rows: the header line, and a line for each row in order.
///
/// `Write` is one failed call of the sink, and a proper prefix of the file was written. At `OutOfMemory` no call
/// failed, and a prefix of the file was written, perhaps none or all of it.
pub fn write_rows<W: Sink>(
    alloc: Global,
    batches: &RowsBetween<'_>,
    sink: &mut W,
) -> Result<(), CsvFault>
    ensures written { OnOk result
        (Appends (W.contents sink.old) (W.contents sink.new) (file (joined batches.now))) }
    ensures prefix { result ≡ Err CsvFault.Write
        → AppendsPrefix (W.contents sink.old) (W.contents sink.new) (file (joined batches.now)) }
    ensures fault { result ≡ Err CsvFault.Write
        → Rises (W.failed_calls sink.old) (W.failed_calls sink.new) }
    ensures memory { result ≡ Err CsvFault.OutOfMemory
        → AppendsSome (W.contents sink.old) (W.contents sink.new) (file (joined batches.now)) }
    ensures count { W.failed_calls sink.new
        ≡ count_after (is_sink_fault result) (W.failed_calls sink.old) }
{
    let mut text = Vec::new(alloc);
    if text.extend_from_slice(header_text()).is_err() {
        return Err(CsvFault::OutOfMemory);
    }
    let mut held = HeldLine::of(LinePieces::new(alloc));
    let mut rows = Vec::new(alloc);
    let result = write_behind(batches, &mut held, &mut rows, &mut text, sink);
    drop_pieces(Some(held.into_pieces()));
    result
}
