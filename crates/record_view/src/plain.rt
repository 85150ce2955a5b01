//! Fields of plain text. A byte that is not plain is left to the exact reader.

ghost use Rattle.std.specs.Prelude.{◌≡◌, ◌≢◌, ◌<◌, ◌≤◌, ◌==◌, ◌∷◌, ℕ, List, slice_index, false, length, min, take, position, IfNone, IfSome, IsTrue, is_some};
ghost use Rattle.std.specs.List.{list_any, position_or_len};
ghost use Rattle.metering_model.specs.Dates.{stamp_in};
ghost use Rattle.record_view.specs.Parts.{LentText, lent, parts_at};
ghost use Rattle.record_view.specs.Inner.Placed.{IsPlaced};
ghost use Rattle.byte_text.specs.Runs.{IsRun};
ghost use Rattle.record_view.specs.Inner.Plain.{stops_at};
ghost use Rattle.record_view.specs.Plain.{is_plain, is_plain_line};

use crate::fields::{Field, cut};
use byte_text::lowest_set;
use std::simd::prelude::*;

/// So many bytes of a field are looked at in one step.
const LANES: usize = 16;

/// So many bytes of tags are.
const FEW_LANES: usize = 8;

/// How many of the first bytes are plain before one is not: all of them tested at once.
#[inline(always)]
fn plain_run(text: &[u8]) -> usize
    requires { 16 ≤ length text.now }
    ensures { IsRun (stops_at 124) text.now 16 result }
{
    let lanes = u8x16::from_slice(text);
    let stops = lanes.simd_lt(u8x16::splat(0x20)) | lanes.simd_ge(u8x16::splat(0x7C));
    lowest_set(stops.to_bitmask(), LANES)
}

/// Where the first byte stands that is not plain, byte by byte. (The loop is shorter where it stands alone.)
#[inline(never)]
fn first_special_by_bytes(text: &[u8]) -> Option<usize>
    ensures { result ≡ position (stops_at 124) text.now }
{
    text.iter().position(|c| *c < 0x20 || *c >= 0x7C)
}

/// Where the first byte stands that is not plain, in a text of which the first sixteen were passed: sixteen more in
/// each step, and at last the last sixteen.
#[inline(never)]
fn later_special(text: &[u8]) -> Option<usize>
    requires from { 16 ≤ length text.now }
    requires passed { (k : ℕ) → k < 16 → stops_at 124 (slice_index text.now k) ≡ false }
    ensures { result ≡ position (stops_at 124) text.now }
{
    let mut at = LANES;
    while text.len() - at >= LANES {
        let run = plain_run(&text[at..]);
        if run < LANES {
            return Some(at + run);
        }
        at += LANES;
    }
    let behind = text.len() - LANES;
    let run = plain_run(&text[behind..]);
    if run < LANES {
        Some(behind + run)
    } else {
        None
    }
}

/// Where the first byte stands that is not plain. Where it is near, it is found in one step.
#[inline(always)]
fn first_special(text: &[u8]) -> Option<usize>
    ensures { result ≡ position (stops_at 124) text.now }
{
    if text.len() >= LANES {
        let run = plain_run(text);
        if run < LANES {
            return Some(run);
        }
        return later_special(text);
    }
    first_special_by_bytes(text)
}

/// How many of the first bytes are plain and no `;` before one is not or is one: all of them tested at once.
#[inline(always)]
fn part_run(text: &[u8]) -> usize
    requires { 8 ≤ length text.now }
    ensures { IsRun (stops_at 59) text.now 8 result }
{
    let lanes = u8x8::from_slice(text);
    let special = lanes.simd_lt(u8x8::splat(0x20)) | lanes.simd_ge(u8x8::splat(0x7C));
    let stops = special | lanes.simd_eq(u8x8::splat(b';'));
    lowest_set(stops.to_bitmask(), FEW_LANES)
}

/// The same of twice as many.
#[inline(always)]
fn long_part_run(text: &[u8]) -> usize
    requires { 16 ≤ length text.now }
    ensures { IsRun (stops_at 59) text.now 16 result }
{
    let lanes = u8x16::from_slice(text);
    let special = lanes.simd_lt(u8x16::splat(0x20)) | lanes.simd_ge(u8x16::splat(0x7C));
    let stops = special | lanes.simd_eq(u8x16::splat(b';'));
    lowest_set(stops.to_bitmask(), LANES)
}

/// Where the first byte stands that is `;` or is not plain, byte by byte.
#[inline(never)]
fn part_end_by_bytes(text: &[u8]) -> Option<usize>
    ensures { result ≡ position (stops_at 59) text.now }
{
    text.iter()
        .position(|c| *c < 0x20 || *c >= 0x7C || *c == b';')
}

/// Where it stands in a text of which the first eight bytes were passed, and which has as many more at most.
#[inline(always)]
fn part_end_in_last(text: &[u8]) -> Option<usize>
    requires from { 8 ≤ length text.now }
    requires to { length text.now ≤ 16 }
    requires passed { (k : ℕ) → k < 8 → stops_at 59 (slice_index text.now k) ≡ false }
    ensures { result ≡ position (stops_at 59) text.now }
{
    let behind = text.len() - FEW_LANES;
    let run = part_run(&text[behind..]);
    if run < FEW_LANES {
        Some(behind + run)
    } else {
        None
    }
}

/// Where it stands in a text of sixteen bytes or more: sixteen in each step, and at last the last sixteen.
#[inline(always)]
fn long_part_end(text: &[u8]) -> Option<usize>
    requires { 16 ≤ length text.now }
    ensures { result ≡ position (stops_at 59) text.now }
{
    let mut at = 0;
    while text.len() - at >= LANES {
        let run = long_part_run(&text[at..]);
        if run < LANES {
            return Some(at + run);
        }
        at += LANES;
    }
    let behind = text.len() - LANES;
    let run = long_part_run(&text[behind..]);
    if run < LANES {
        Some(behind + run)
    } else {
        None
    }
}

/// Where the first byte stands that is `;` or is not plain, found in steps of many bytes where there are as many.
#[inline(always)]
pub(crate) fn part_end(text: &[u8]) -> Option<usize>
    ensures { result ≡ position (stops_at 59) text.now }
{
    if text.len() >= LANES {
        return long_part_end(text);
    }
    if text.len() >= FEW_LANES {
        let run = part_run(text);
        if run < FEW_LANES {
            return Some(run);
        }
        return part_end_in_last(text);
    }
    part_end_by_bytes(text)
}

/// How many of the first bytes are no `=` before one is: all of them tested at once.
#[inline(always)]
fn key_run(text: &[u8]) -> usize
    requires { 8 ≤ length text.now }
    ensures { IsRun (λ c. c == 61) text.now 8 result }
{
    let equals = u8x8::from_slice(text).simd_eq(u8x8::splat(b'='));
    lowest_set(equals.to_bitmask(), FEW_LANES)
}

/// The same of twice as many.
#[inline(always)]
fn long_key_run(text: &[u8]) -> usize
    requires { 16 ≤ length text.now }
    ensures { IsRun (λ c. c == 61) text.now 16 result }
{
    let equals = u8x16::from_slice(text).simd_eq(u8x16::splat(b'='));
    lowest_set(equals.to_bitmask(), LANES)
}

/// Where the first `=` stands, byte by byte.
fn first_equals(text: &[u8]) -> Option<usize>
    ensures { result ≡ position (λ c. c == 61) text.now }
{
    text.iter().position(|c| *c == b'=')
}

/// The same, or where the text ends.
#[inline(never)]
fn key_end_by_bytes(text: &[u8]) -> usize
    ensures { result ≡ position_or_len (λ c. c == 61) text.now }
{
    match first_equals(text) {
        Some(at) => at,
        None => text.len(),
    }
}

/// Where the first `=` stands among the bytes before a place; that place or a later one, if none stands there. One that
/// is near is found in one step, whatever follows. A later one is looked for among these bytes alone: much more may
/// stand after them.
#[inline(always)]
pub(crate) fn key_end(text: &[u8], end: usize) -> usize
    requires { end ≤ length text.now }
    ensures { min result end ≡ position_or_len (λ c. c == 61) (take end text.now) }
{
    if text.len() >= LANES {
        let run = long_key_run(text);
        if run < LANES {
            return run;
        }
    } else if text.len() >= FEW_LANES {
        let run = key_run(text);
        if run < FEW_LANES {
            return run;
        }
    }
    key_end_by_bytes(&text[..end])
}

/// What stands before and after the first bar of a text, where all that stands before it is plain.
#[inline(always)]
pub(crate) fn split_plain<'a>(whole: Field<'a>) -> Option<(Field<'a>, Field<'a>)>
    requires { IsPlaced (lent whole) }
    ensures parts { IfSome result
        (λ p. parts_at 124 (lent whole.entry) ≡ lent p.0 ∷ parts_at 124 (lent p.1)) }
    ensures plain { IfSome result (λ p. IsTrue (is_plain p.0.text.now)) }
    ensures placed { IfSome result (λ p. IsPlaced (lent p.0) × IsPlaced (lent p.1)) }
    ensures none { IfNone result (IsTrue (is_plain_line whole.entry.text.now)
        → list_any (λ c. c == 124) whole.entry.text.now ≡ false) }
{
    let at = first_special(whole.text)?;
    if whole.text[at] != b'|' {
        return None;
    }
    Some(cut(whole, at))
}

/// The one byte before the first bar, which is the letter of a record, and what stands after it.
#[inline(always)]
pub(crate) fn split_letter<'a>(whole: Field<'a>) -> Option<(Field<'a>, Field<'a>)>
    requires { IsPlaced (lent whole) }
    ensures parts { IfSome result
        (λ p. parts_at 124 (lent whole.entry) ≡ lent p.0 ∷ parts_at 124 (lent p.1)) }
    ensures placed { IfSome result (λ p. IsPlaced (lent p.1)) }
    ensures none { IfNone result ((first second : LentText) (others : List LentText) →
        parts_at 124 (lent whole.entry) ≡ first ∷ second ∷ others → length first.text ≢ 1) }
{
    if whole.text.len() < 2 || whole.text[0] == b'|' || whole.text[1] != b'|' {
        return None;
    }
    Some(cut(whole, 1))
}

/// The 20 bytes before a bar, and what stands after it. If they are a stamp, the bar is the first.
pub(crate) fn split_stamp<'a>(whole: Field<'a>) -> Option<(Field<'a>, Field<'a>)>
    requires { IsPlaced (lent whole) }
    ensures parts { IfSome result (λ p. IsTrue (is_some (stamp_in p.0.text.now))
        → parts_at 124 (lent whole.entry) ≡ lent p.0 ∷ parts_at 124 (lent p.1)) }
    ensures placed { IfSome result (λ p. IsPlaced (lent p.1)) }
    ensures none { IfNone result ((first second : LentText) (others : List LentText) →
        parts_at 124 (lent whole.entry) ≡ first ∷ second ∷ others
        → IsTrue (is_some (stamp_in first.text)) → ⊥) }
    ensures first { IfSome result (λ p. (first second : LentText) (others : List LentText) →
        parts_at 124 (lent whole.entry) ≡ first ∷ second ∷ others
        → IsTrue (is_some (stamp_in first.text))
        → first.text ≡ p.0.text.now) }
{
    if whole.text.len() <= 20 || whole.text[20] != b'|' {
        return None;
    }
    Some(cut(whole, 20))
}
