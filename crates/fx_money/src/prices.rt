//! Prices of one unit.

ghost use Rattle.std.specs.Prelude.{◌≡◌, ◌+◌, ◌<◌, ◌≤◌, ◌++◌, length, Some, None, pos, string_bytes, string_len, string_capacity, IfOk, OnOk, OnErr};
ghost use Rattle.metering_model.specs.NumberText.{price_limit, price_in, spelling};

use crate::reading::magnitude;
use crate::writing::{append_millionths, millionths_text};
use metering_model::NumberFault;
use std::alloc::{AllocError, Global};
use std::marker::Model;

const PRICE_LIMIT: u64 = 1_000_000_000_000;

/// A price of one unit: whole millionths, from 0 to below 10^12.
#[derive(Clone, Copy, Debug, PartialEq, Eq)]
pub struct Price(u64);

impl Model for Price {
    ghost use Rattle.std.specs.Prelude.{ℕ, ◌<◌};
    ghost use Rattle.metering_model.specs.NumberText.{price_limit};

    ghost Value = { ℕ };

    ghost view = { λ price. price.0 };

    ghost invariant = { λ price. price.0 < price_limit };

    ghost inverse = { λ millionths. record { 0 = millionths } };
}

impl Price {
    /// The price of so many millionths; None at 10^12 or more.
    pub fn new(millionths: u64) -> Option<Price>
        ensures within { millionths < price_limit → result ≡ Some millionths }
        ensures beyond { price_limit ≤ millionths → result ≡ None }
    {
        if millionths < PRICE_LIMIT {
            Some(Price(millionths))
        } else {
            None
        }
    }

    /// Reads a decimal of at most six places and without minus. Shape is a text of another form, Range a number of
    /// 1,000,000 or more.
    pub fn read(text: &[u8]) -> Result<Price, NumberFault>
        ensures { result ≡ price_in text.now }
    {
        match magnitude(text, PRICE_LIMIT) {
            Ok(millionths) => Ok(Price(millionths)),
            Err(fault) => Err(fault),
        }
    }

    /// The price in millionths.
    pub fn millionths(self) -> u64
        ensures value { result ≡ self }
        ensures within { result < price_limit }
    {
        self.0
    }

    /// Appends the one spelling of the price, with at most six places. An error is an allocation failure: it comes only
    /// where the spare capacity is too small, and leaves the text as it was.
    pub fn write_to(&self, text: &mut String) -> Result<(), AllocError>
        ensures ok { OnOk result
            (string_bytes text.new ≡ string_bytes text.old ++ spelling 6 (pos self.now)) }
        ensures kept { OnErr result (string_bytes text.new ≡ string_bytes text.old) }
        ensures full { OnErr result
            (string_capacity text.old < string_len text.old + length (spelling 6 (pos self.now))) }
        ensures capacity { string_capacity text.old ≤ string_capacity text.new }
    {
        append_millionths(text, false, self.0)
    }

    /// The one spelling of the price. An error is an allocation failure.
    pub fn write(&self, alloc: Global) -> Result<String, AllocError>
        ensures { IfOk result (λ text. string_bytes text ≡ spelling 6 (pos self.now)) }
    {
        millionths_text(alloc, false, self.0)
    }
}
