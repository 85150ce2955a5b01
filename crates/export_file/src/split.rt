//! The file of a snapshot whose lines are made in several threads at once: parts of its batches, each in room of its
//! own.

ghost use Rattle.std.specs.Prelude.{◌≡◌, ◌≢◌, ℕ, ◌<◌, ◌≤◌, ◌*◌, ◌++◌, ◌∷◌, length, min, slice_index_or, is_err, IsTrue, IfOk, IfErr, OnOk, OnErr};
ghost use Rattle.std.specs.List.{list_all};
ghost use Rattle.std.specs.Io.KnownBytes.{Appends};
ghost use Rattle.counted_io.specs.Counts.{Rises, count_after};
ghost use Rattle.counted_io.specs.Writing.{AppendsPrefix};
ghost use Rattle.metering_model.specs.File.{file, header_line};
ghost use Rattle.focus_csv.specs.Rows.{batch_lines, joined};
ghost use Rattle.export_file.specs.Inner.Parts.{part_of, texts_in};
ghost use Rattle.export_file.specs.Inner.Writing.{Writes};

use counted_io::{Failed, Sink, write_all};
use focus_csv::laws::a_file_is_written_in_parts;
use focus_csv::{CsvFault, RowsBetween, header_text, put_batches, put_file, text_for};
use rayon::current_num_threads;
use rayon::prelude::*;
use std::alloc::{AllocError, Global};
use std::thread::Threads;

/// So many rows at least there are for each part, some 512 KiB of text. For fewer no thread is worth what it costs.
const LEAST_PART: usize = 1_600;

/// `rayon` starts no more threads.
const MOST_PARTS: usize = 32;

/// Two parts of few rows take longer than one: their threads cost more than they save.
const LEAST_PARTS: usize = 3;

/// Room for the lines of one part of the batches.
#[derive(Drop)]
struct Room {
    text: Vec<u8>,
    /// Whether there was memory for its lines.
    is_made: bool,
}

/// Where the part of that number begins, where each but the last has so many of all batches.
fn part_start(all: usize, size: usize, k: usize) -> usize
    ensures { result ≡ min (k * size) all }
{
    match k.checked_mul(size) {
        Some(from) => from.min(all),
        None => all,
    }
}

/// The lines of the part of that number.
fn part_lines(
    alloc: Global,
    batches: &RowsBetween<'_>,
    size: usize,
    k: usize,
) -> Result<Vec<u8>, AllocError>
    ensures { IfOk result (λ text. text.items ≡ batch_lines (part_of batches.now size k)) }
{
    let all = batches.batches();
    let from = part_start(all, size, k);
    let to = from + size.min(all - from);
    let mut text = text_for(alloc, batches.estimated_rows(from, to));
    put_batches(alloc, batches, from, to, &mut text)?;
    Ok(text)
}

impl Room {
    /// Makes the lines of the part of that number, as far as there is memory.
    fn fill(&mut self, alloc: Global, batches: &RowsBetween<'_>, size: usize, k: usize)
        ensures { IsTrue self.new.is_made
            → self.new.text.items ≡ batch_lines (part_of batches.now size k) }
    {
        match part_lines(alloc, batches, size, k) {
            Ok(text) => {
                self.text = text;
                self.is_made = true;
            }
            Err(_) => self.is_made = false,
        }
    }
}

/// So many rooms, with no lines made.
fn make_rooms(alloc: Global, count: usize) -> Result<Vec<Room>, AllocError>
    ensures { IfOk result (λ rooms. length rooms.items ≡ count) }
{
    let mut rooms = Vec::new(alloc);
    for _room in 0..count {
        let room = Room {
            text: Vec::new(alloc),
            is_made: false,
        };
        if rooms.push(room).is_err() {
            return Err(AllocError);
        }
    }
    Ok(rooms)
}

/// Fills each room with the lines of the part of its number, all at once.
fn fill_rooms(
    rt: &(impl Threads + Sync),
    alloc: Global,
    rooms: &mut [Room],
    batches: &RowsBetween<'_>,
    size: usize,
)
    ensures len { length rooms.new ≡ length rooms.old }
    ensures each { (k : ℕ) (d : Room) → k < length rooms.old
        → IsTrue (slice_index_or rooms.new k d).is_made
        → (slice_index_or rooms.new k d).text.items ≡ batch_lines (part_of batches.now size k) }
{
    par_for_each_mut(
        rt,
        rooms,
        |k: usize, room: &mut Room|
            ensures { IsTrue room.new.is_made
                → room.new.text.items ≡ batch_lines (part_of batches.entry.now size k) }
        { room.fill(alloc, batches, size, k) },
    );
}

/// Whether all rooms have their lines.
fn are_made(rooms: &[Room]) -> bool
    ensures { result ≡ list_all (λ room. room.is_made) rooms.now }
{
    rooms.iter().all(|room| room.is_made)
}

/// The lines of all batches, in order, in so many rooms.
fn lines_in_rooms(
    rt: &(impl Threads + Sync),
    alloc: Global,
    batches: &RowsBetween<'_>,
    count: usize,
    size: usize,
) -> Result<Vec<Room>, AllocError>
    requires { length batches.now ≤ count * size }
    ensures { IfOk result (λ rooms. texts_in rooms.items ≡ batch_lines batches.now) }
{
    let Ok(mut rooms) = make_rooms(alloc, count) else {
        return Err(AllocError);
    };
    fill_rooms(rt, alloc, rooms.as_mut_slice(), batches, size);
    if are_made(&rooms) {
        Ok(rooms)
    } else {
        Err(AllocError)
    }
}

/// Writes the header line, and then the texts of the rooms in order.
fn write_rooms<W: Sink>(sink: &mut W, rooms: &[Room]) -> Result<(), Failed>
    ensures written { OnOk result
        (Appends (W.contents sink.old) (W.contents sink.new)
        (header_line ++ 10 ∷ texts_in rooms.now)) }
    ensures prefix { OnErr result
        (AppendsPrefix (W.contents sink.old) (W.contents sink.new)
        (header_line ++ 10 ∷ texts_in rooms.now)) }
    ensures fault { OnErr result (Rises (W.failed_calls sink.old) (W.failed_calls sink.new)) }
    ensures count { W.failed_calls sink.new
        ≡ count_after (is_err result) (W.failed_calls sink.old) }
{
    write_all(sink, header_text())?;
    for i in 0..rooms.len() {
        write_all(sink, rooms[i].text.as_slice())?;
    }
    Ok(())
}

/// The file, whose lines this thread makes.
fn file_text(alloc: Global, batches: &RowsBetween<'_>) -> Result<Vec<u8>, AllocError>
    ensures { IfOk result (λ text. text.items ≡ file (joined batches.now)) }
{
    let mut text = text_for(alloc, batches.estimated_rows(0, batches.batches()));
    put_file(alloc, batches, &mut text)?;
    Ok(text)
}

/// Writes the file, whose lines this thread makes.
fn write_unsplit<W: Sink>(
    alloc: Global,
    batches: &RowsBetween<'_>,
    sink: &mut W,
) -> Result<(), CsvFault>
    ensures writes { Writes result (W.contents sink.old) (W.contents sink.new)
        (W.failed_calls sink.old) (W.failed_calls sink.new) (file (joined batches.now)) }
    ensures kept { IfErr result (λ fault. fault ≢ CsvFault.Write → sink.new ≡ sink.old) }
{
    let Ok(text) = file_text(alloc, batches) else {
        return Err(CsvFault::OutOfMemory);
    };
    match write_all(sink, text.as_slice()) {
        Ok(()) => Ok(()),
        Err(_) => Err(CsvFault::Write),
    }
}

/// How many parts the batches are split into: one, where no thread is worth it, or three at least, and beyond that no
/// more than there are processors. Few rows are told before the processors are counted, which takes longer than their
/// file.
fn part_count(rt: &impl Threads, batches: &RowsBetween<'_>) -> usize
    ensures { 1 ≤ result }
{
    let most = batches.estimated_rows(0, batches.batches()) / LEAST_PART;
    if most < LEAST_PARTS {
        return 1;
    }
    let threads = current_num_threads(rt);
    if threads < 2 {
        return 1;
    }
    threads.max(LEAST_PARTS).min(most).min(MOST_PARTS)
}

/// Writes the file of the batches. The lines of many rows are made in several threads at once, and all before the first
/// byte goes out.
pub(crate) fn write_split<W: Sink>(
    rt: &(impl Threads + Sync),
    alloc: Global,
    batches: &RowsBetween<'_>,
    sink: &mut W,
) -> Result<(), CsvFault>
    ensures writes { Writes result (W.contents sink.old) (W.contents sink.new)
        (W.failed_calls sink.old) (W.failed_calls sink.new) (file (joined batches.now)) }
    ensures kept { IfErr result (λ fault. fault ≢ CsvFault.Write → sink.new ≡ sink.old) }
{
    a_file_is_written_in_parts();
    let count = part_count(rt, batches);
    if count == 1 {
        return write_unsplit(alloc, batches, sink);
    }
    let size = batches.batches().div_ceil(count);
    let Ok(rooms) = lines_in_rooms(rt, alloc, batches, count, size) else {
        return Err(CsvFault::OutOfMemory);
    };
    match write_rooms(sink, rooms.as_slice()) {
        Ok(()) => Ok(()),
        Err(_) => Err(CsvFault::Write),
    }
}
