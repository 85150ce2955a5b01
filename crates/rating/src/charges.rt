//! Charges by a price.

ghost use Rattle.std.specs.Prelude.{◌≡◌, ◌≤ℤ◌, pos};
ghost use Rattle.std.specs.Option.{option_copied};
ghost use Rattle.metering_model.specs.Rating as model;

use crate::rated::{Rated, cost_at, no_cost};
use crate::rounding::{difference, pricing_quantity};
use fx_money::Value;
use metering_model::PricedKind;
use price_sheet::{Commitment, PriceRow};

/// What usage or a purchase comes to by a price, from an old value of its reading to a new one, neither negative.
///
/// Each of the two values is rounded to its pricing quantity, half to even, not their difference, and nothing else.
pub fn rate(
    row: &PriceRow,
    commitment: Option<&Commitment>,
    kind: PricedKind,
    was: Value,
    now: Value,
) -> Rated
    requires was_not_negative { pos 0 ≤ℤ was }
    requires now_not_negative { pos 0 ≤ℤ now }
    ensures rated { result ≡ model.rated row.now (option_copied commitment.entry) kind was now }
{
    let quantity = pricing_quantity(row.per(), was, now);
    let list = cost_at(row.list(), quantity);
    let cost = cost_at(row.contracted(), quantity);
    match kind {
        PricedKind::Usage => {
            let consumed = Some(difference(was, now));
            let (billed, effective) = match commitment {
                Some(commitment) => (no_cost(), cost_at(commitment.rate(), quantity)),
                None => (cost, cost),
            };
            Rated {
                consumed,
                priced: Some(quantity),
                list,
                contracted: cost,
                billed,
                effective,
            }
        }
        PricedKind::Purchase => {
            let effective = if commitment.is_some() {
                no_cost()
            } else {
                cost
            };
            Rated {
                consumed: None,
                priced: Some(quantity),
                list,
                contracted: cost,
                billed: cost,
                effective,
            }
        }
    }
}
