//! Bytes and lines found and counted.

ghost use Rattle.std.specs.Prelude.{◌≡◌, ◌+◌, ◌==◌, ◌<◌, ◌≤◌, [], ◌∷◌, length, take, position, MatchOption};
ghost use Rattle.metering_model.specs.BatchReading.{fields_in, lines_in, with_line};
ghost use Rattle.metering_model.specs.Transcript.{line_count};
ghost use Rattle.byte_text.specs.Lines.{IsPast};
ghost use Rattle.byte_text.specs.Runs.{IsRun, lowest_set};

use memchr::memchr;
use std::simd::prelude::*;

/// The index of the lowest bit that is set in the mask, or `many` where none is.
#[inline(always)]
pub fn lowest_set(mask: u64, many: usize) -> usize
    ensures { result ≡ lowest_set mask many }
{
    if mask == 0 {
        many
    } else {
        mask.trailing_zeros() as usize
    }
}

/// How many of the first bytes come before the first such one, so many as are tested at once; all of them where none is.
#[inline(always)]
fn run_before<const LANES: usize>(text: &[u8], byte: u8) -> usize
    requires lanes { LANES ≤ 64 }
    requires from { LANES ≤ length text.now }
    ensures { IsRun (λ c. c == byte) text.now LANES result }
{
    let found = Simd::<u8, LANES>::from_slice(text).simd_eq(Simd::splat(byte));
    lowest_set(found.to_bitmask(), LANES)
}

/// The index of the first such byte in a text of so many bytes to twice as many: it is among so many first ones, or so many last.
#[inline(always)]
fn find_near<const LANES: usize>(text: &[u8], byte: u8) -> Option<usize>
    requires lanes { LANES ≤ 64 }
    requires from { LANES ≤ length text.now }
    requires to { length text.now ≤ LANES + LANES }
    ensures { result ≡ position (λ c. c == byte) text.now }
{
    let run = run_before::<LANES>(text, byte);
    if run < LANES {
        return Some(run);
    }
    let behind = text.len() - LANES;
    let run = run_before::<LANES>(&text[behind..], byte);
    if run < LANES {
        Some(behind + run)
    } else {
        None
    }
}

/// The same in any text, by the library alone: it goes byte by byte where there are few.
fn find_far(text: &[u8], byte: u8) -> Option<usize>
    ensures { result ≡ position (λ c. c == byte) text.now }
{
    memchr(byte, text)
}

/// The same in a text of 32 bytes or more: what stands near its beginning is found without a call.
#[inline(always)]
fn find_long(text: &[u8], byte: u8) -> Option<usize>
    requires { 32 ≤ length text.now }
    ensures { result ≡ position (λ c. c == byte) text.now }
{
    let run = run_before::<32>(text, byte);
    if run < 32 {
        return Some(run);
    }
    find_far(text, byte)
}

/// The index of the first such byte; None where the text has none.
pub fn find_byte(text: &[u8], byte: u8) -> Option<usize>
    ensures { result ≡ position (λ c. c == byte) text.now }
{
    // A field, a word, a packet or a line of a schedule is short: one or two tests find where it ends, and need no call.
    let count = text.len();
    if count > 64 {
        return find_long(text, byte);
    }
    if count >= 32 {
        return find_near::<32>(text, byte);
    }
    if count >= 16 {
        return find_near::<16>(text, byte);
    }
    if count >= 8 {
        return find_near::<8>(text, byte);
    }
    if count >= 4 {
        return find_near::<4>(text, byte);
    }
    find_far(text, byte)
}

/// How many line feeds the first bytes of a text have, so many as are tested at once: the bits of the mask are counted.
#[inline(always)]
fn feeds_in_step<const LANES: usize>(text: &[u8]) -> usize
    requires lanes { LANES ≤ 64 }
    requires from { LANES ≤ length text.now }
    ensures { result ≡ line_count (take LANES text.now) }
{
    let feeds = Simd::<u8, LANES>::from_slice(text).simd_eq(Simd::splat(b'\n'));
    feeds.to_bitmask().count_ones() as usize
}

/// How many line feeds were counted in steps of so many bytes, and what is left after the last step.
#[inline(always)]
fn feeds_in_steps<const LANES: usize>(text: &[u8]) -> (usize, &[u8])
    requires { (0 < LANES) × (LANES ≤ 64) }
    ensures counted { line_count text.now ≡ result.0 + line_count result.1.now }
    ensures most { result.0 + length result.1.now ≤ length text.now }
{
    let mut count = 0;
    let mut rest = text;
    while rest.len() >= LANES {
        count += feeds_in_step::<LANES>(rest);
        rest = &rest[LANES..];
    }
    (count, rest)
}

/// How many line feeds a text has, byte by byte.
#[inline(always)]
fn feeds_by_bytes(text: &[u8]) -> usize
    ensures counted { result ≡ line_count text.now }
    ensures most { result ≤ length text.now }
{
    let mut count = 0;
    for byte in text {
        if *byte == b'\n' {
            count += 1;
        }
    }
    count
}

/// How many line feeds a text has. What stands after the last one is no line.
pub fn line_count(text: &[u8]) -> usize
    ensures { result ≡ line_count text.now }
{
    // So short a text has no step.
    if text.len() < 4 {
        return feeds_by_bytes(text);
    }
    // Many bytes are tested at once, then fewer, and the last ones each alone.
    let (many, behind) = feeds_in_steps::<64>(text);
    let (some, behind) = feeds_in_steps::<16>(behind);
    let (few, last) = feeds_in_steps::<4>(behind);
    many + some + few + feeds_by_bytes(last)
}

/// How many bytes the first `count` lines have, each with its line feed; None where the text has fewer lines.
pub fn lines_length(text: &[u8], count: u32) -> Option<usize>
    ensures { MatchOption result (length (lines_in text.now).lines < count)
        (IsPast text.now count) }
{
    let mut length = 0;
    for _ in 0..count {
        length += find_byte(&text[length..], b'\n')? + 1;
    }
    Some(length)
}

/// The first line, without its line feed, and what stands after it; None where the text has no line feed.
pub fn first_line(text: &[u8]) -> Option<(&[u8], &[u8])>
    ensures { MatchOption result ((lines_in text.now).lines ≡ [])
        (λ parts. lines_in text.now ≡ with_line parts.0.now (lines_in parts.1.now)) }
{
    let feed = find_byte(text, b'\n')?;
    Some((&text[..feed], &text[feed + 1..]))
}

/// What stands before the first `|`, and what stands after it; None where the text has none.
pub fn split_at_bar(text: &[u8]) -> Option<(&[u8], &[u8])>
    ensures { MatchOption result
        (fields_in text.now ≡ text.now ∷ [])
        (λ parts. fields_in text.now ≡ parts.0.now ∷ fields_in parts.1.now) }
{
    let bar = find_byte(text, b'|')?;
    Some((&text[..bar], &text[bar + 1..]))
}
