//! Differences of values and of quantities.

ghost use Rattle.std.specs.Prelude.{◌≡◌, ◌+◌, ◌<◌, ◌≤◌, ◌++◌, length, Some, None, unsigned_abs, string_bytes, string_len, string_capacity, IfOk, OnOk, OnErr};
ghost use Rattle.metering_model.specs.NumberText.{delta_limit, spelling};

use crate::writing::{append_millionths, millionths_text};
use std::alloc::{AllocError, Global};
use std::marker::Model;

const DELTA_LIMIT: u64 = 2_000_000_000_000_000_000;

/// The difference of two values or of two quantities: whole millionths, of a magnitude below
/// 2 * 10^18.
#[derive(Clone, Copy, Debug, PartialEq, Eq)]
pub struct Delta(i64);

impl Model for Delta {
    ghost use Rattle.std.specs.Prelude.{ℤ, ◌<◌, unsigned_abs};
    ghost use Rattle.metering_model.specs.NumberText.{delta_limit};

    ghost Value = { ℤ };

    ghost view = { λ delta. delta.0 };

    ghost invariant = { λ delta. unsigned_abs delta.0 < delta_limit };

    ghost inverse = { λ millionths. record { 0 = millionths } };
}

impl Delta {
    /// The difference of so many millionths; None at a magnitude of 2 * 10^18 or more.
    pub fn new(millionths: i64) -> Option<Delta>
        ensures within { unsigned_abs millionths < delta_limit → result ≡ Some millionths }
        ensures beyond { delta_limit ≤ unsigned_abs millionths → result ≡ None }
    {
        if millionths.unsigned_abs() < DELTA_LIMIT {
            Some(Delta(millionths))
        } else {
            None
        }
    }

    /// The difference in millionths.
    pub fn millionths(self) -> i64
        ensures value { result ≡ self }
        ensures within { unsigned_abs result < delta_limit }
    {
        self.0
    }

    /// Appends the one spelling of the difference, with at most six places. An error is an allocation failure: it comes
    /// only where the spare capacity is too small, and leaves the text as it was.
    pub fn write_to(&self, text: &mut String) -> Result<(), AllocError>
        ensures ok { OnOk result
            (string_bytes text.new ≡ string_bytes text.old ++ spelling 6 self.now) }
        ensures kept { OnErr result (string_bytes text.new ≡ string_bytes text.old) }
        ensures full { OnErr result
            (string_capacity text.old < string_len text.old + length (spelling 6 self.now)) }
        ensures capacity { string_capacity text.old ≤ string_capacity text.new }
    {
        append_millionths(text, self.0.is_negative(), self.0.unsigned_abs())
    }

    /// The one spelling of the difference. An error is an allocation failure.
    pub fn write(&self, alloc: Global) -> Result<String, AllocError>
        ensures { IfOk result (λ text. string_bytes text ≡ spelling 6 self.now) }
    {
        millionths_text(alloc, self.0.is_negative(), self.0.unsigned_abs())
    }
}
