//! The count of failed calls beside a writer or a reader of std.
ghost use Rattle.std.specs.Prelude.{◌≡◌};
ghost use Rattle.counted_io.specs.Counts.{count_after};
ghost use Rattle.counted_io.specs.Counted.{failures_of, inner_of};
ghost use Rattle.counted_io.specs.Writing.{is_failed_write};

use super::{Sink, Source};
use std::io;
use std::io::{Read, Write};

/// A writer or a reader of std, with the count of its calls that failed.
///
/// A `Counted<Vec<u8>>` is a sink that keeps what it is given.
#[derive(Drop)]
pub struct Counted<T> {
    inner: T,
    failed: u64,
}

impl<T> Counted<T> {
    /// Wraps a writer or a reader, with no failed call counted yet.
    pub fn new(inner: T) -> Counted<T>
        ensures inner { inner_of result ≡ inner }
        ensures fresh { failures_of result ≡ 0 }
    {
        Counted { inner, failed: 0 }
    }

    /// The writer or reader inside.
    pub fn inner(&self) -> &T
        ensures { result.now ≡ inner_of self.now }
    {
        &self.inner
    }

    /// Returns the writer or reader, and drops the count.
    pub fn into_inner(self) -> T
        ensures { result ≡ inner_of self }
    {
        self.inner
    }

    /// How many calls failed. The count stops at the greatest u64.
    pub fn failed_calls(&self) -> u64
        ensures { result ≡ failures_of self.now }
    {
        self.failed
    }

    /// Counts the call that just came back, where it failed.
    fn note(&mut self, has_failed: bool)
        ensures inner { inner_of self.new ≡ inner_of self.old }
        ensures count { failures_of self.new ≡ count_after has_failed (failures_of self.old) }
    {
        self.failed = self.failed.saturating_add(u64::from(has_failed));
    }
}

/// Whether a write failed: at an error, and where it took nothing of something.
fn is_failed_write(answer: &io::Result<usize>, bytes: &[u8]) -> bool
    ensures { result ≡ is_failed_write answer.now bytes.now }
{
    match answer {
        Ok(taken) => *taken == 0 && !bytes.is_empty(),
        Err(_) => true,
    }
}

impl<T: Write> Sink for Counted<T> {
    ghost contents = { λ counted. T.contents (inner_of counted) };

    ghost failed_calls = { failures_of };

    fn write(&mut self, bytes: &[u8]) -> io::Result<usize> {
        let answer = self.inner.write(bytes);
        self.note(is_failed_write(&answer, bytes));
        answer
    }
}

impl<T: Read> Source for Counted<T> {
    ghost remaining = { λ counted. T.remaining (inner_of counted) };

    ghost failed_calls = { failures_of };

    fn read(&mut self, room: &mut [u8]) -> io::Result<usize> {
        let answer = self.inner.read(room);
        self.note(answer.is_err());
        answer
    }
}
