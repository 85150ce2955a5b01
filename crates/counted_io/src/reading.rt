//! Sources, and reading a whole input up to a limit.
ghost use Rattle.std.specs.Prelude.{◌≡◌, ℕ, ◌+◌, ◌<◌, ◌≤◌, List, Option, None, length, take, vec_len, OnOk, OnErr, IfOk, IfSome, is_err};
ghost use Rattle.std.specs.Io.{ReadsAtMost};
ghost use Rattle.std.specs.Io.KnownBytes.{Consumes, IsAtEnd, Keeps, ReadConsumes};
ghost use Rattle.counted_io.specs.Counts.{Rises, count_after};
ghost use Rattle.counted_io.specs.Reading.{ConsumesAtMost, EndsWithin, IsAnswer, is_device_fault};
ghost use Rattle.counted_io.specs.Inner.Blocks.{CameBehind, LacksBytes};

use std::alloc::{AllocError, Global};
use std::io;
use thiserror::Error;

/// What gives bytes, and counts the calls that failed.
pub trait Source {
    /// The bytes that it will give from here on, where they are known.
    ghost remaining: { Self → Option (List ℕ) } = { λ _. None };

    /// How many calls failed. The count stops at the greatest u64.
    ghost failed_calls: { Self → ℕ };

    /// Puts the next bytes at the beginning of `room`, and returns how many they are.
    ///
    /// 0 with a `room` that is not empty is the end. An error took nothing, and counts as a failed call; nothing else
    /// does.
    fn read(&mut self, room: &mut [u8]) -> io::Result<usize>
        ensures bound { ReadsAtMost result room.new }
        ensures consumed { ReadConsumes (remaining self.old) (remaining self.new) result room.new }
        ensures count { failed_calls self.new
            ≡ count_after (is_err result) (failed_calls self.old) };
}

/// What came of reading up to a limit.
#[derive(Drop)]
pub enum Input {
    /// All the bytes that remained.
    Whole(Vec<u8>),
    /// More bytes remained than the limit.
    TooLong,
}

/// Why reading ended early.
#[derive(Clone, Copy, Debug, Drop, Error)]
pub enum ReadFault {
    /// A call of the source failed.
    #[error("read failed")]
    Failed,
    /// Out of memory: an allocation for the bytes failed.
    #[error("out of memory")]
    OutOfMemory,
}

/// The most bytes that one call asks for.
const BLOCK: usize = 64 * 1024;

/// All the bytes of the source, or TooLong where it had more than `limit` bytes. At most `limit` + 1 bytes are taken.
///
/// An error returns nothing of what was read: Failed is one failed call of the source, OutOfMemory an allocation
/// failure.
pub fn read_to_limit<S: Source>(
    alloc: Global,
    source: &mut S,
    limit: u32,
) -> Result<Input, ReadFault>
    ensures answer { IfOk result
        (λ input. IfSome (S.remaining source.old) (λ bytes. IsAnswer limit bytes input)) }
    ensures end { IfOk result (EndsWithin limit (S.remaining source.new)) }
    ensures taken { ConsumesAtMost (limit + 1) (S.remaining source.old) (S.remaining source.new) }

    // `Failed` comes only from a failed call, and that is the only one.
    ensures fault { result ≡ Err ReadFault.Failed
        → Rises (S.failed_calls source.old) (S.failed_calls source.new) }
    ensures count { S.failed_calls source.new
        ≡ count_after (is_device_fault result) (S.failed_calls source.old) }
{
    let most = limit as usize + 1;
    let mut bytes = Vec::new(alloc);
    let mut filled = 0;
    while filled < most {
        let count = read_block(source, &mut bytes, filled, most)?;
        if count == 0 {
            bytes.truncate(filled);
            return Ok(Input::Whole(bytes));
        }
        filled += count;
    }
    Ok(Input::TooLong)
}

// One read behind the `filled` bytes.
fn read_block<S: Source>(
    source: &mut S,
    bytes: &mut Vec<u8>,
    filled: usize,
    most: usize,
) -> Result<usize, ReadFault>
    requires { LacksBytes filled most bytes.old }
    ensures bounded { vec_len bytes.new ≤ most }
    ensures before { take filled bytes.new.items ≡ take filled bytes.old.items }
    ensures came { IfOk result
        (CameBehind filled bytes.new (S.remaining source.old) (S.remaining source.new)) }
    ensures kept { OnErr result (Keeps (S.remaining source.old) (S.remaining source.new)) }
    ensures count { S.failed_calls source.new
        ≡ count_after (is_device_fault result) (S.failed_calls source.old) }
{
    if make_room(bytes, filled, most).is_err() {
        return Err(ReadFault::OutOfMemory);
    }
    read_some(source, &mut bytes[filled..])
}

// Makes room behind the `filled` bytes, and only where none is left, so that each byte of it is
// cleared once, however few bytes a read gives.
fn make_room(bytes: &mut Vec<u8>, filled: usize, most: usize) -> Result<(), AllocError>
    requires { LacksBytes filled most bytes.old }
    ensures bounded { vec_len bytes.new ≤ most }
    ensures room { OnOk result (filled < vec_len bytes.new) }
    ensures before { take filled bytes.new.items ≡ take filled bytes.old.items }
{
    if filled == bytes.len() {
        let block = BLOCK.min(most - filled);
        bytes.resize(filled + block, 0)?;
    }
    Ok(())
}

// One read into room, which gives no byte only at the end.
fn read_some<S: Source>(source: &mut S, room: &mut [u8]) -> Result<usize, ReadFault>
    requires { 0 < length room.old }
    ensures bound { IfOk result (λ count. count ≤ length room.new) }
    ensures consumed { IfOk result (λ count. Consumes (S.remaining source.old)
        (S.remaining source.new) (take count room.new)) }
    ensures end { IfOk result (λ count. count ≡ 0 → IsAtEnd (S.remaining source.new)) }
    ensures kept { OnErr result (Keeps (S.remaining source.old) (S.remaining source.new)) }
    ensures count { S.failed_calls source.new
        ≡ count_after (is_device_fault result) (S.failed_calls source.old) }
{
    match source.read(room) {
        Ok(count) => Ok(count),
        Err(_) => Err(ReadFault::Failed),
    }
}
