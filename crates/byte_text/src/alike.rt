//! Whether two texts are the same bytes.

ghost use Rattle.std.specs.Prelude.{◌≡◌, ◌↔◌, ◌≤◌, ◌*◌, IsTrue, length, take};
ghost use Rattle.metering_model.specs.BatchReading.{is_same};

use std::simd::prelude::*;

/// So many bytes of both texts are compared in one step.
const MOST_LANES: usize = 16;

/// So many of shorter ones are.
const FEW_LANES: usize = 8;

/// So many of the shortest for which a step is worth it.
const LEAST_LANES: usize = 4;

/// Whether the first bytes are the same, so many as are compared at once.
#[inline(always)]
fn begin_alike<const LANES: usize>(left: &[u8], right: &[u8]) -> bool
    requires lanes { LANES ≤ 64 }
    requires left { LANES ≤ length left.now }
    requires right { LANES ≤ length right.now }
    ensures { IsTrue result ↔ (take LANES left.now ≡ take LANES right.now) }
{
    let differ = Simd::<u8, LANES>::from_slice(left).simd_ne(Simd::from_slice(right));
    differ.to_bitmask() == 0
}

/// Whether two texts of one length are the same, by their first bytes and their last, which together are all of them.
#[inline(always)]
fn ends_alike<const LANES: usize>(left: &[u8], right: &[u8]) -> bool
    requires lanes { LANES ≤ 64 }
    requires from { LANES ≤ length left.now }
    requires to { length left.now ≤ 2 * LANES }
    requires same_length { length left.now ≡ length right.now }
    ensures { IsTrue result ↔ (left.now ≡ right.now) }
{
    let behind = left.len() - LANES;
    begin_alike::<LANES>(left, right) && begin_alike::<LANES>(&left[behind..], &right[behind..])
}

/// Whether two texts of 4 to 32 bytes and of one length are the same.
#[inline(always)]
fn are_alike(left: &[u8], right: &[u8]) -> bool
    requires from { LEAST_LANES ≤ length left.now }
    requires to { length left.now ≤ 2 * MOST_LANES }
    requires same_length { length left.now ≡ length right.now }
    ensures { IsTrue result ↔ (left.now ≡ right.now) }
{
    let count = left.len();
    if count >= MOST_LANES {
        return ends_alike::<MOST_LANES>(left, right);
    }
    if count >= FEW_LANES {
        return ends_alike::<FEW_LANES>(left, right);
    }
    ends_alike::<LEAST_LANES>(left, right)
}

/// Whether two texts are the same bytes. Those of 4 to 32 are compared in two steps and without a call, others by the
/// library.
#[inline(always)]
pub fn is_same(left: &[u8], right: &[u8]) -> bool
    ensures { result ≡ is_same left.now right.now }
{
    let count = left.len();
    if count != right.len() {
        return false;
    }
    if count > 2 * MOST_LANES || count < LEAST_LANES {
        return left == right;
    }
    are_alike(left, right)
}
