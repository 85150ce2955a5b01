//! Quantities, rounded half to even.

ghost use Rattle.std.specs.Prelude.{◌≡◌, ◌<◌, ◌≤◌, ◌≤ℤ◌, ◌-ℤ◌, pos};
ghost use Rattle.metering_model.specs.NumberText.{value_limit};
ghost use Rattle.metering_model.specs.Rating as model;

use fx_money::{Delta, Value};

// How many times `per` goes into the magnitude, rounded half to even
fn rounded(per: u32, magnitude: u64) -> u64
    requires some { 0 < per }
    requires small { magnitude < value_limit }
    ensures rounded { result ≡ model.rounded_magnitude per magnitude }
    ensures within { result ≤ magnitude }
{
    let per = u64::from(per);
    let whole = magnitude / per;
    let twice_rest = 2 * (magnitude % per);
    if twice_rest < per {
        whole
    } else if per < twice_rest {
        whole + 1
    } else {
        whole + whole % 2
    }
}

// The pricing quantity from an old value to a new one: each is rounded, and not their difference.
pub(crate) fn pricing_quantity(per: u32, was: Value, now: Value) -> Delta
    requires some { 0 < per }
    requires was_not_negative { pos 0 ≤ℤ was }
    requires now_not_negative { pos 0 ≤ℤ now }
    ensures { result ≡ model.pricing_quantity per now -ℤ model.pricing_quantity per was }
{
    let was = rounded(per, was.millionths().unsigned_abs());
    let now = rounded(per, now.millionths().unsigned_abs());
    Delta::new(now as i64 - was as i64).unwrap()
}

// The difference of two values keeps the limit of a difference.
pub(crate) fn difference(was: Value, now: Value) -> Delta
    ensures { result ≡ now -ℤ was }
{
    Delta::new(now.millionths() - was.millionths()).unwrap()
}
