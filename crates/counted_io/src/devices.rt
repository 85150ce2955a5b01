//! Devices over memory for tests: a writer and a reader that fail at the calls that a test names.
//!
//! Calls are counted from 1. Wrap one as `Counted::new(..)` where a sink or a source is required.
ghost use Rattle.std.specs.Prelude.{◌≡◌, ◌<◌, ◌+◌, ◌⊎◌, length, Some, None, true, false, vec_len, vec_capacity, IsTrue, IsErr, IfOk, OnErr, is_err};
ghost use Rattle.std.specs.Io.{ReadsAtMost, WritesAtMost};
ghost use Rattle.std.specs.Io.KnownBytes.{Keeps, ReadConsumes, WriteAppends};
ghost use Rattle.counted_io.specs.Counts.{next_count};
ghost use Rattle.counted_io.specs.Devices.{GivesInto, IsReaderCalled, IsWriterCalled, carried, carried_unless, is_call, is_since, known_unless_pausing};

use std::io;
use std::io::{ErrorKind, Read, Write};

/// A writer into a vector. Unless a field says otherwise, it takes all bytes of each call.
#[derive(Drop)]
pub struct FakeWriter {
    /// What it has taken, after what was there at first.
    pub taken: Vec<u8>,
    /// How many calls were made, flushes too. The count stops at the greatest u64.
    pub calls: u64,
    /// The call that fails, if any.
    pub failing: Option<u64>,
    /// The call from which on it takes nothing, if any.
    pub full_from: Option<u64>,
    /// Whether it takes at most one byte a call.
    pub byte_by_byte: bool,
}

impl FakeWriter {
    /// A writer that takes all, and appends to what the vector holds.
    pub fn new(taken: Vec<u8>) -> FakeWriter
        ensures { result ≡ record {
          taken = taken;
          calls = 0;
          failing = None;
          full_from = None;
          byte_by_byte = false;
        } }
    {
        FakeWriter {
            taken,
            calls: 0,
            failing: None,
            full_from: None,
            byte_by_byte: false,
        }
    }

    /// The same writer, whose call of that number fails.
    pub fn failing_at(self, call: u64) -> FakeWriter
        ensures { result ≡ record {
          taken = self.taken;
          calls = self.calls;
          failing = Some call;
          full_from = self.full_from;
          byte_by_byte = self.byte_by_byte;
        } }
    {
        FakeWriter {
            failing: Some(call),
            ..self
        }
    }

    /// The same writer, which takes nothing from the call of that number on.
    pub fn full_from(self, call: u64) -> FakeWriter
        ensures { result ≡ record {
          taken = self.taken;
          calls = self.calls;
          failing = self.failing;
          full_from = Some call;
          byte_by_byte = self.byte_by_byte;
        } }
    {
        FakeWriter {
            full_from: Some(call),
            ..self
        }
    }

    /// The same writer, which takes at most one byte a call.
    pub fn byte_by_byte(self) -> FakeWriter
        ensures { result ≡ record {
          taken = self.taken;
          calls = self.calls;
          failing = self.failing;
          full_from = self.full_from;
          byte_by_byte = true;
        } }
    {
        FakeWriter {
            byte_by_byte: true,
            ..self
        }
    }
}

impl Write for FakeWriter {
    ghost contents = { λ writer. Some writer.taken.items };

    fn write(&mut self, bytes: &[u8]) -> io::Result<usize>
        ensures bound { WritesAtMost result bytes.now }
        ensures appended { WriteAppends (Some self.old.taken.items)
            (Some self.new.taken.items) result bytes.now }
        ensures called { IsWriterCalled self.old self.new }
        ensures failing { IsTrue (is_call self.old.failing self.new.calls) → IsErr result }
        ensures count { IfOk result
            (λ count. count ≡ carried_unless (is_since self.old.full_from self.new.calls)
            self.old.byte_by_byte (length bytes.now)) }

        // Another call fails only for want of memory.
        ensures fault { OnErr result (IsTrue (is_call self.old.failing self.new.calls)
            ⊎ (vec_capacity self.old.taken < vec_len self.old.taken + length bytes.now)) }
    {
        self.calls = self.calls.saturating_add(1);
        if is_call(self.failing, self.calls) {
            return Err(io::Error::from(ErrorKind::TimedOut));
        }
        let count = if is_since(self.full_from, self.calls) {
            0
        } else {
            carried(self.byte_by_byte, bytes.len())
        };
        self.taken.extend_from_slice(&bytes[..count])?;
        Ok(count)
    }

    /// Counts as a call, and fails only at the call that fails.
    fn flush(&mut self) -> io::Result<()>
        ensures bytes { Keeps (Some self.old.taken.items) (Some self.new.taken.items) }
        ensures failing { is_err result ≡ is_call self.old.failing self.new.calls }
        ensures all { self.new ≡ record {
          taken = self.old.taken;
          calls = next_count self.old.calls;
          failing = self.old.failing;
          full_from = self.old.full_from;
          byte_by_byte = self.old.byte_by_byte;
        } }
    {
        self.calls = self.calls.saturating_add(1);
        if is_call(self.failing, self.calls) {
            Err(io::Error::from(ErrorKind::TimedOut))
        } else {
            Ok(())
        }
    }
}

/// A reader of a slice. Unless a field says otherwise, each call fills the buffer as far as the slice goes.
#[derive(Drop)]
pub struct FakeReader<'a> {
    /// What it has not given yet.
    pub rest: &'a [u8],
    /// How many calls were made. The count stops at the greatest u64.
    pub calls: u64,
    /// The call that fails, if any.
    pub failing: Option<u64>,
    /// The call that gives nothing, as at the end, whatever is left; if any.
    pub pausing: Option<u64>,
    /// Whether it gives at most one byte a call.
    pub byte_by_byte: bool,
}

impl<'a> FakeReader<'a> {
    /// A reader that gives these bytes.
    pub fn new(rest: &'a [u8]) -> FakeReader<'a>
        ensures { result ≡ record {
          rest = rest.entry;
          calls = 0;
          failing = None;
          pausing = None;
          byte_by_byte = false;
        } }
    {
        FakeReader {
            rest,
            calls: 0,
            failing: None,
            pausing: None,
            byte_by_byte: false,
        }
    }

    /// The same reader, whose call of that number fails.
    pub fn failing_at(self, call: u64) -> FakeReader<'a>
        ensures { result ≡ record {
          rest = self.entry.rest;
          calls = self.entry.calls;
          failing = Some call;
          pausing = self.entry.pausing;
          byte_by_byte = self.entry.byte_by_byte;
        } }
    {
        FakeReader {
            failing: Some(call),
            ..self
        }
    }

    /// The same reader, whose call of that number gives nothing, and later ones go on.
    pub fn pausing_at(self, call: u64) -> FakeReader<'a>
        ensures { result ≡ record {
          rest = self.entry.rest;
          calls = self.entry.calls;
          failing = self.entry.failing;
          pausing = Some call;
          byte_by_byte = self.entry.byte_by_byte;
        } }
    {
        FakeReader {
            pausing: Some(call),
            ..self
        }
    }

    /// The same reader, which gives at most one byte a call.
    pub fn byte_by_byte(self) -> FakeReader<'a>
        ensures { result ≡ record {
          rest = self.entry.rest;
          calls = self.entry.calls;
          failing = self.entry.failing;
          pausing = self.entry.pausing;
          byte_by_byte = true;
        } }
    {
        FakeReader {
            byte_by_byte: true,
            ..self
        }
    }
}

impl Read for FakeReader<'_> {
    ghost remaining = { λ reader. known_unless_pausing reader.pausing reader.rest.now };

    fn read(&mut self, room: &mut [u8]) -> io::Result<usize>
        ensures bound { ReadsAtMost result room.new }
        ensures consumed { ReadConsumes (known_unless_pausing self.old.pausing self.old.rest.now)
            (known_unless_pausing self.new.pausing self.new.rest.now) result room.new }
        ensures called { IsReaderCalled self.old self.new }
        ensures failing { is_err result ≡ is_call self.old.failing self.new.calls }
        ensures gives { IfOk result (GivesInto self.old self.new room.old room.new) }
        ensures kept { OnErr result (self.new.rest.now ≡ self.old.rest.now) }
    {
        self.calls = self.calls.saturating_add(1);
        if is_call(self.failing, self.calls) {
            return Err(io::Error::from(ErrorKind::TimedOut));
        }
        if is_call(self.pausing, self.calls) {
            return Ok(0);
        }
        let count = carried(self.byte_by_byte, room.len());
        self.rest.read(&mut room[..count])
    }
}

// Whether the call of this number is the one that is meant.
fn is_call(meant: Option<u64>, number: u64) -> bool
    ensures { result ≡ is_call meant number }
{
    meant == Some(number)
}

// Whether the call of this number, or an earlier one, is the one that is meant.
fn is_since(meant: Option<u64>, number: u64) -> bool
    ensures { result ≡ is_since meant number }
{
    meant.is_some_and(|call| call <= number)
}

// How many of so many bytes go over at a call.
fn carried(byte_by_byte: bool, count: usize) -> usize
    ensures { result ≡ carried byte_by_byte count }
{
    if byte_by_byte { count.min(1) } else { count }
}
