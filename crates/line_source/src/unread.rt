//! Bytes that were read and not yet taken.

ghost use Rattle.std.specs.Prelude.{◌≡◌, ◌+◌, ◌<◌, ◌≤◌, [], length, take, drop, vec_len, true, false, Ok, IfErr, unwrap_or};
ghost use Rattle.std.specs.Io.KnownBytes.{IsAtEnd};
ghost use Rattle.std.specs.Result.{result_ok};
ghost use Rattle.metering_model.specs.Limits.{most_transcript_bytes};
ghost use Rattle.counted_io.specs.Counts.{count_after};
ghost use Rattle.line_source.specs.Calls.{ReadsWithin};
ghost use Rattle.line_source.specs.Faults.{tells_of_source};
ghost use Rattle.line_source.specs.Inner.Blocks.{ReadsInto, StandsBehind};
ghost use Rattle.line_source.specs.Reading.{IsStopped, Takes};

use crate::faults::SourceFault;
use counted_io::Source;
use std::alloc::Global;
use std::marker::Model;

/// More bytes than these are too many, from one mark to the next.
const MOST_BYTES: u64 = 4_294_967_296;

/// So many bytes are asked for at a time.
const BLOCK: usize = 65_536;

/// What was read of a source and not yet taken. Contracts see these bytes, and how many were read since the last mark:
/// those that were ahead there count as read.
#[derive(Drop)]
pub struct Unread {
    bytes: Vec<u8>,
    /// The first byte that was not taken.
    from: usize,
    read: u64,
}

impl Model for Unread {
    ghost use Rattle.std.specs.Prelude.{◌+◌, ◌≤◌, drop, vec_len};
    ghost use Rattle.line_source.specs.Reading.{Ahead};

    ghost Value = { Ahead };

    ghost view = { λ u. record {
      bytes = drop u.from u.bytes.items;
      read = u.read;
    } };

    ghost invariant = { λ u. (u.from ≤ vec_len u.bytes) × (vec_len u.bytes ≤ u.from + u.read) };
}

/// Moves the bytes after the first ones to the beginning, and drops those. Where there is nothing to drop, nothing moves: a
/// long line would else be moved onto itself at each block that is read of it.
fn drop_prefix(bytes: &mut Vec<u8>, count: usize)
    requires { count ≤ length bytes.old.items }
    ensures { bytes.new.items ≡ drop count bytes.old.items }
{
    if count == 0 {
        return;
    }
    let length = bytes.len() - count;
    bytes.as_mut_slice().copy_within(count.., 0);
    bytes.truncate(length);
}

/// One read after the first bytes, into the room that follows them.
fn read_room<S: Source>(
    source: &mut S,
    bytes: &mut Vec<u8>,
    length: usize,
) -> Result<usize, SourceFault>
    requires { length < vec_len bytes.old }
    ensures prefix { take length bytes.new.items ≡ take length bytes.old.items }
    ensures length { vec_len bytes.new ≡ vec_len bytes.old }
    ensures reads { ReadsInto result (drop length bytes.new.items) (S.remaining source.old)
        (S.remaining source.new) (S.failed_calls source.old) (S.failed_calls source.new) }
{
    match source.read(&mut bytes[length..]) {
        Ok(came) => Ok(came),
        Err(_) => Err(SourceFault::Read),
    }
}

/// One read after the first bytes, into the room that follows them. What the source does not fill goes.
fn read_behind<S: Source>(
    source: &mut S,
    bytes: &mut Vec<u8>,
    length: usize,
) -> Result<usize, SourceFault>
    requires { length < vec_len bytes.old }
    ensures stands { StandsBehind length bytes.old.items bytes.new.items
        (unwrap_or (result_ok result) 0) (S.remaining source.old) (S.remaining source.new) }
    ensures end { result ≡ Ok 0 → IsAtEnd (S.remaining source.new) }
    ensures fault { IfErr result (λ fault. fault ≡ SourceFault.Read) }
    ensures count { S.failed_calls source.new
        ≡ count_after (tells_of_source result) (S.failed_calls source.old) }
{
    match read_room(source, bytes, length) {
        Ok(came) => {
            bytes.truncate(length + came);
            Ok(came)
        }
        Err(fault) => {
            bytes.truncate(length);
            Err(fault)
        }
    }
}

impl Unread {
    /// Nothing was read yet.
    pub fn new(alloc: Global) -> Unread
        ensures bytes { result.bytes ≡ [] }
        ensures read { result.read ≡ 0 }
    {
        Unread {
            bytes: Vec::new(alloc),
            from: 0,
            read: 0,
        }
    }

    /// The bytes ahead.
    pub fn ahead(&self) -> &[u8]
        ensures { result.now ≡ self.now.bytes }
    {
        &self.bytes[self.from..]
    }

    /// Takes so many of the bytes ahead.
    pub fn take(&mut self, count: usize)
        requires { count ≤ length self.old.bytes }
        ensures bytes { self.new.bytes ≡ drop count self.old.bytes }
        ensures read { self.new.read ≡ self.old.read }
    {
        self.from += count;
    }

    /// Counts anew what is read: what is ahead counts as read, and nothing else.
    pub fn mark(&mut self)
        ensures bytes { self.new.bytes ≡ self.old.bytes }
        ensures read { self.new.read ≡ length self.old.bytes }
        ensures within { self.new.read ≤ self.old.read }
    {
        self.read = (self.bytes.len() - self.from) as u64;
    }

    /// Gives back the room of what was taken, all but a block for what comes next: a long section would else hold its room for
    /// as long as is read. What is ahead moves to the beginning, so this is for where little is. Where an allocation fails, the room
    /// stays.
    pub fn release(&mut self)
        ensures bytes { self.new.bytes ≡ self.old.bytes }
        ensures read { self.new.read ≡ self.old.read }
    {
        drop_prefix(&mut self.bytes, self.from);
        self.from = 0;
        self.bytes.shrink_to(BLOCK);
    }

    /// Reads a block more, and returns whether a byte came: none does at the end. The last block ends where the limit is, so
    /// what is whole just below it is not refused for what follows it.
    pub fn fill<S: Source>(&mut self, source: &mut S) -> Result<bool, SourceFault>
        requires { self.old.read ≤ most_transcript_bytes }
        ensures takes { Takes self.old.bytes self.new.bytes self.old.read self.new.read
            (S.remaining source.old) (S.remaining source.new) [] }
        ensures more { result ≡ Ok true → length self.old.bytes < length self.new.bytes }
        ensures end { result ≡ Ok false → (self.new ≡ self.old) × IsAtEnd (S.remaining source.new) }
        ensures block { length self.new.bytes ≤ length self.old.bytes + 65_536 }
        ensures stopped { IfErr result (IsStopped self.old self.new) }
        ensures reads { ReadsWithin result self.new.read (S.failed_calls source.old)
            (S.failed_calls source.new) }
    {
        let most = (BLOCK as u64).min((MOST_BYTES - self.read).max(1)) as usize;
        drop_prefix(&mut self.bytes, self.from);
        self.from = 0;
        let length = self.bytes.len();
        let Ok(()) = self.bytes.resize(length + most, 0) else {
            return Err(SourceFault::OutOfMemory);
        };
        let came = read_behind(source, &mut self.bytes, length)?;
        self.read += came as u64;
        if self.read > MOST_BYTES {
            return Err(SourceFault::TooLong);
        }
        Ok(came > 0)
    }
}
