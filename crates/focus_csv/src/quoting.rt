//! Whether a field has to be quoted.

ghost use Rattle.std.specs.Prelude.{◌≡◌, ◌≤◌, length};
ghost use Rattle.std.specs.List.{list_any};
ghost use Rattle.byte_text.specs.Runs.{IsRun};
ghost use Rattle.focus_csv.specs.Inner.Quoting.{is_special};

use byte_text::lowest_set;
use std::simd::prelude::*;

/// So many bytes of a field are looked at in one step.
const LANES: usize = 16;

/// So many of a short one are.
const FEW_LANES: usize = 8;

/// How many of the first bytes a reader of CSV would not cut a field at, before one at which it would: all of them
/// tested at once.
#[inline(always)]
fn run_of_many(field: &[u8]) -> usize
    requires { 16 ≤ length field.now }
    ensures { IsRun is_special field.now 16 result }
{
    let lanes = u8x16::from_slice(field);
    let marks = lanes.simd_eq(u8x16::splat(b',')) | lanes.simd_eq(u8x16::splat(b'"'));
    let ends = lanes.simd_eq(u8x16::splat(b'\r')) | lanes.simd_eq(u8x16::splat(b'\n'));
    lowest_set((marks | ends).to_bitmask(), LANES)
}

/// The same of half as many.
#[inline(always)]
fn run_of_few(field: &[u8]) -> usize
    requires { 8 ≤ length field.now }
    ensures { IsRun is_special field.now 8 result }
{
    let lanes = u8x8::from_slice(field);
    let marks = lanes.simd_eq(u8x8::splat(b',')) | lanes.simd_eq(u8x8::splat(b'"'));
    let ends = lanes.simd_eq(u8x8::splat(b'\r')) | lanes.simd_eq(u8x8::splat(b'\n'));
    lowest_set((marks | ends).to_bitmask(), FEW_LANES)
}

/// Whether a reader of CSV would cut a field of sixteen bytes or more: sixteen are looked at in each step, and at last
/// the last sixteen.
fn is_long_cut(field: &[u8]) -> bool
    requires { 16 ≤ length field.now }
    ensures { result ≡ list_any is_special field.now }
{
    let mut at = 0;
    while field.len() - at >= LANES {
        let run = run_of_many(&field[at..]);
        if run < LANES {
            return true;
        }
        at += LANES;
    }
    let behind = field.len() - LANES;
    let run = run_of_many(&field[behind..]);
    run < LANES
}

/// The same of a field of eight to sixteen bytes: its first eight, and its last eight.
#[inline(always)]
fn is_short_cut(field: &[u8]) -> bool
    requires from { 8 ≤ length field.now }
    requires to { length field.now ≤ 16 }
    ensures { result ≡ list_any is_special field.now }
{
    let first = run_of_few(field);
    if first < FEW_LANES {
        return true;
    }
    let behind = field.len() - FEW_LANES;
    let run = run_of_few(&field[behind..]);
    run < FEW_LANES
}

/// Whether a reader of CSV would cut a field.
#[inline(always)]
pub(crate) fn needs_quotes(field: &[u8]) -> bool
    ensures { result ≡ list_any is_special field.now }
{
    if field.len() >= LANES {
        return is_long_cut(field);
    }
    if field.len() >= FEW_LANES {
        return is_short_cut(field);
    }
    field
        .iter()
        .any(|c| *c == b',' || *c == b'"' || *c == b'\r' || *c == b'\n')
}
