//! Texts: bytes of printable ASCII.

ghost use Rattle.std.specs.Prelude.{◌≡◌, ◌<◌, ◌≤◌, length, take, false, MatchOption};
ghost use Rattle.metering_model.specs.Batch.{is_text};

use std::simd::prelude::*;

/// Whether the first bytes are printable ASCII, so many as are tested at once.
#[inline(always)]
fn is_text_in_step<const LANES: usize>(text: &[u8]) -> bool
    requires lanes { LANES ≤ 64 }
    requires from { LANES ≤ length text.now }
    ensures { result ≡ is_text (take LANES text.now) }
{
    let lanes = Simd::<u8, LANES>::from_slice(text);
    let odd = lanes.simd_lt(Simd::splat(0x20)) | lanes.simd_gt(Simd::splat(0x7E));
    odd.to_bitmask() == 0
}

/// What is left after the last step of so many bytes, and None where a step has a byte that is not printable ASCII.
#[inline(always)]
fn behind_steps<const LANES: usize>(text: &[u8]) -> Option<&[u8]>
    requires { (0 < LANES) × (LANES ≤ 64) }
    ensures { MatchOption result (is_text text.now ≡ false)
        (λ rest. is_text text.now ≡ is_text rest.now) }
{
    let mut rest = text;
    while rest.len() >= LANES {
        if !is_text_in_step::<LANES>(rest) {
            return None;
        }
        rest = &rest[LANES..];
    }
    Some(rest)
}

/// Whether each byte is printable ASCII, byte by byte.
#[inline(always)]
fn is_text_by_bytes(text: &[u8]) -> bool
    ensures { result ≡ is_text text.now }
{
    text.iter().all(|c| *c >= 0x20 && *c <= 0x7E)
}

/// Whether each byte is printable ASCII. Many bytes are tested at once, then fewer, and the last ones each alone.
#[inline(never)]
pub(crate) fn is_text(text: &[u8]) -> bool
    ensures { result ≡ is_text text.now }
{
    let Some(behind) = behind_steps::<16>(text) else {
        return false;
    };
    let Some(last) = behind_steps::<4>(behind) else {
        return false;
    };
    is_text_by_bytes(last)
}
