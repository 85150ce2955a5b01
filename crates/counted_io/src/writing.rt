//! Sinks, and writing a whole text to one.
ghost use Rattle.std.specs.Prelude.{◌≡◌, ℕ, ◌<◌, ◌≤◌, List, Option, None, length, take, OnOk, OnErr, IfOk, is_err};
ghost use Rattle.std.specs.Io.{WritesAtMost};
ghost use Rattle.std.specs.Io.KnownBytes.{Appends, Keeps, WriteAppends};
ghost use Rattle.counted_io.specs.Counts.{Rises, count_after};
ghost use Rattle.counted_io.specs.Writing.{AppendsPrefix, is_failed_write};

use std::io;
use thiserror::Error;

/// What takes bytes, and counts the calls that failed. It is never flushed.
pub trait Sink {
    /// The bytes that it holds, where they are known.
    ghost contents: { Self → Option (List ℕ) } = { λ _. None };

    /// How many calls failed. The count stops at the greatest u64.
    ghost failed_calls: { Self → ℕ };

    /// Takes a prefix of `bytes`, and returns how many it took.
    ///
    /// An error took nothing. A call counts as failed at an error, and where it takes none of some bytes.
    fn write(&mut self, bytes: &[u8]) -> io::Result<usize>
        ensures bound { WritesAtMost result bytes.now }
        ensures appended { WriteAppends (contents self.old) (contents self.new) result bytes.now }
        ensures count { failed_calls self.new
            ≡ count_after (is_failed_write result bytes.now) (failed_calls self.old) };
}

/// A call of a sink failed.
#[derive(Clone, Copy, Debug, Drop, Error)]
#[error("write failed")]
pub struct Failed;

/// Writes all of `bytes`, in as many calls as the sink needs, and stops at the first that fails.
///
/// At an error a proper prefix of `bytes` was written.
pub fn write_all<S: Sink>(sink: &mut S, bytes: &[u8]) -> Result<(), Failed>
    ensures written { OnOk result (Appends (S.contents sink.old) (S.contents sink.new) bytes.now) }
    ensures prefix { OnErr result
        (AppendsPrefix (S.contents sink.old) (S.contents sink.new) bytes.now) }

    // An error comes only from a failed call, and that is the only one.
    ensures fault { OnErr result (Rises (S.failed_calls sink.old) (S.failed_calls sink.new)) }
    ensures count { S.failed_calls sink.new
        ≡ count_after (is_err result) (S.failed_calls sink.old) }
{
    let mut sent = 0;
    while sent < bytes.len() {
        sent += write_some(sink, &bytes[sent..])?;
    }
    Ok(())
}

// One write, which takes some of the bytes or fails.
fn write_some<S: Sink>(sink: &mut S, bytes: &[u8]) -> Result<usize, Failed>
    requires { 0 < length bytes.now }
    ensures some { IfOk result (λ taken. (0 < taken) × (taken ≤ length bytes.now)) }
    ensures appended { IfOk result
        (λ taken. Appends (S.contents sink.old) (S.contents sink.new) (take taken bytes.now)) }
    ensures kept { OnErr result (Keeps (S.contents sink.old) (S.contents sink.new)) }
    ensures count { S.failed_calls sink.new
        ≡ count_after (is_err result) (S.failed_calls sink.old) }
{
    match sink.write(bytes) {
        Ok(0) => Err(Failed),
        Ok(taken) => Ok(taken),
        Err(_) => Err(Failed),
    }
}
