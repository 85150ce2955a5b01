//! What a charge comes to.

ghost use Rattle.std.specs.Prelude.{◌≡◌, pos};
ghost use Rattle.metering_model.specs.Limits.{one_in_millionths};
ghost use Rattle.metering_model.specs.Rating as model;

use crate::rounding::difference;
use fx_money::{Cost, Delta, Price, Value};
use std::marker::Model;

/// What a charge comes to: its quantities, in millionths, and its four costs, in units of 10^-12 of
/// the currency. A quantity that the charge does not have is None.
#[derive(Clone, Copy, Debug, PartialEq, Eq)]
pub struct Rated {
    /// ConsumedQuantity: metered units.
    pub consumed: Option<Delta>,
    /// PricingQuantity: priced units.
    pub priced: Option<Delta>,
    /// ListCost.
    pub list: Cost,
    /// ContractedCost.
    pub contracted: Cost,
    /// BilledCost.
    pub billed: Cost,
    /// EffectiveCost.
    pub effective: Cost,
}

impl Model for Rated {
    ghost use Rattle.metering_model.specs.Rating as model;

    ghost Value = { model.Rated };

    ghost view = { λ r. record {
      consumed = r.consumed;
      priced = r.priced;
      list = r.list;
      contracted = r.contracted;
      billed = r.billed;
      effective = r.effective;
    } };

    ghost inverse = { λ r. record {
      consumed = r.consumed;
      priced = r.priced;
      list = r.list;
      contracted = r.contracted;
      billed = r.billed;
      effective = r.effective;
    } };
}

/// What a credit, a tax or an adjustment comes to, from an old amount to a new one: the difference, under all four
/// costs, and no quantity.
pub fn rate_flat(was: Value, now: Value) -> Rated
    ensures flat { result ≡ model.flat was now }
{
    let amount = cost_at(one(), difference(was, now));
    Rated {
        consumed: None,
        priced: None,
        list: amount,
        contracted: amount,
        billed: amount,
        effective: amount,
    }
}

// A price times a quantity keeps the limit of a cost.
pub(crate) fn cost_at(price: Price, quantity: Delta) -> Cost
    ensures { result ≡ model.cost_at price quantity }
{
    let price = price.millionths();
    let units = i128::from(price) * i128::from(quantity.millionths());
    Cost::new(units).unwrap()
}

// An amount is charged as a quantity at a price of one unit of the currency.
fn one() -> Price
    ensures { result ≡ one_in_millionths }
{
    Price::new(1_000_000).unwrap()
}

pub(crate) fn no_cost() -> Cost
    ensures { result ≡ pos 0 }
{
    Cost::new(0).unwrap()
}
