//! What is to be paid.

ghost use Rattle.std.specs.Prelude.{◌≡◌, ◌+◌, ◌<◌, ◌≤◌, ◌++◌, length, Some, None, unsigned_abs, string_bytes, string_len, string_capacity, IfOk, OnOk, OnErr};
ghost use Rattle.metering_model.specs.NumberText.{cost_limit, spelling};

use crate::writing::append;
use std::alloc::{AllocError, Global};
use std::marker::Model;

/// A cost is the product of a quantity and a price: it has the places of both.
const PLACES: usize = 12;

/// The units of one whole.
const UNITS: u128 = 1_000_000_000_000;

const COST_LIMIT: u128 = 2_000_000_000_000_000_000_000_000_000_000;

/// What is to be paid: whole units of 10^-12 of the currency, of a magnitude below 2 * 10^30.
#[derive(Clone, Copy, Debug, PartialEq, Eq)]
pub struct Cost(i128);

impl Model for Cost {
    ghost use Rattle.std.specs.Prelude.{ℤ, ◌<◌, unsigned_abs};
    ghost use Rattle.metering_model.specs.NumberText.{cost_limit};

    ghost Value = { ℤ };

    ghost view = { λ cost. cost.0 };

    ghost invariant = { λ cost. unsigned_abs cost.0 < cost_limit };

    ghost inverse = { λ units. record { 0 = units } };
}

impl Cost {
    /// The cost of so many units of 10^-12 of the currency; None at a magnitude of 2 * 10^30 or more.
    pub fn new(units: i128) -> Option<Cost>
        ensures within { unsigned_abs units < cost_limit → result ≡ Some units }
        ensures beyond { cost_limit ≤ unsigned_abs units → result ≡ None }
    {
        if units.unsigned_abs() < COST_LIMIT {
            Some(Cost(units))
        } else {
            None
        }
    }

    /// The cost in units of 10^-12 of the currency.
    pub fn units(self) -> i128
        ensures value { result ≡ self }
        ensures within { unsigned_abs result < cost_limit }
    {
        self.0
    }

    /// Appends the one spelling of the cost: units of the currency, with at most twelve places. An error is an
    /// allocation failure: it comes only where the spare capacity is too small, and leaves the text as it was.
    pub fn write_to(&self, text: &mut String) -> Result<(), AllocError>
        ensures ok { OnOk result
            (string_bytes text.new ≡ string_bytes text.old ++ spelling 12 self.now) }
        ensures kept { OnErr result (string_bytes text.new ≡ string_bytes text.old) }
        ensures full { OnErr result
            (string_capacity text.old < string_len text.old + length (spelling 12 self.now)) }
        ensures capacity { string_capacity text.old ≤ string_capacity text.new }
    {
        let magnitude = self.0.unsigned_abs();
        let whole = (magnitude / UNITS) as u64;
        let decimals = (magnitude % UNITS) as u64;
        append(text, self.0.is_negative(), whole, decimals, PLACES)
    }

    /// The one spelling of the cost. An error is an allocation failure.
    pub fn write(&self, alloc: Global) -> Result<String, AllocError>
        ensures { IfOk result (λ text. string_bytes text ≡ spelling 12 self.now) }
    {
        let mut text = String::new(alloc);
        self.write_to(&mut text)?;
        Ok(text)
    }
}
