//! Quantities and amounts.

ghost use Rattle.std.specs.Prelude.{◌≡◌, ◌+◌, ◌<◌, ◌≤◌, ◌++◌, length, Some, None, unsigned_abs, string_bytes, string_len, string_capacity, IfOk, OnOk, OnErr};
ghost use Rattle.metering_model.specs.NumberText.{value_limit, value_in, spelling};

use crate::VALUE_LIMIT;
use crate::reading::signed;
use crate::writing::{append_millionths, millionths_text};
use metering_model::NumberFault;
use std::alloc::{AllocError, Global};
use std::marker::Model;

/// A quantity or an amount: whole millionths, of a magnitude below 10^18.
#[derive(Clone, Copy, Debug, PartialEq, Eq)]
pub struct Value(i64);

impl Model for Value {
    ghost use Rattle.std.specs.Prelude.{ℤ, ◌<◌, unsigned_abs};
    ghost use Rattle.metering_model.specs.NumberText.{value_limit};

    ghost Value = { ℤ };

    ghost view = { λ value. value.0 };

    ghost invariant = { λ value. unsigned_abs value.0 < value_limit };

    ghost inverse = { λ millionths. record { 0 = millionths } };
}

impl Value {
    /// The value of so many millionths; None at a magnitude of 10^18 or more.
    pub fn new(millionths: i64) -> Option<Value>
        ensures within { unsigned_abs millionths < value_limit → result ≡ Some millionths }
        ensures beyond { value_limit ≤ unsigned_abs millionths → result ≡ None }
    {
        if millionths.unsigned_abs() < VALUE_LIMIT {
            Some(Value(millionths))
        } else {
            None
        }
    }

    /// Reads a decimal of at most six places. Shape is a text of another form, Range a number of a magnitude of 10^12
    /// or more.
    pub fn read(text: &[u8]) -> Result<Value, NumberFault>
        ensures { result ≡ value_in text.now }
    {
        match signed(text) {
            Ok(millionths) => Ok(Value(millionths)),
            Err(fault) => Err(fault),
        }
    }

    /// The value in millionths.
    pub fn millionths(self) -> i64
        ensures value { result ≡ self }
        ensures within { unsigned_abs result < value_limit }
    {
        self.0
    }

    /// Appends the one spelling of the value, with at most six places. An error is an allocation failure: it comes only
    /// where the spare capacity is too small, and leaves the text as it was.
    pub fn write_to(&self, text: &mut String) -> Result<(), AllocError>
        ensures ok { OnOk result
            (string_bytes text.new ≡ string_bytes text.old ++ spelling 6 self.now) }
        ensures kept { OnErr result (string_bytes text.new ≡ string_bytes text.old) }
        ensures full { OnErr result
            (string_capacity text.old < string_len text.old + length (spelling 6 self.now)) }
        ensures capacity { string_capacity text.old ≤ string_capacity text.new }
    {
        append_millionths(text, self.0.is_negative(), self.0.unsigned_abs())
    }

    /// The one spelling of the value. An error is an allocation failure.
    pub fn write(&self, alloc: Global) -> Result<String, AllocError>
        ensures { IfOk result (λ text. string_bytes text ≡ spelling 6 self.now) }
    {
        millionths_text(alloc, self.0.is_negative(), self.0.unsigned_abs())
    }
}
