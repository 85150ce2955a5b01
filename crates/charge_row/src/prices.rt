//! The columns of a price.

ghost use Rattle.std.specs.Prelude.{◌≡◌, None, codes, option_map};
ghost use Rattle.std.specs.Option.{option_copied, option_map_or};
ghost use Rattle.metering_model.specs.Sheet.{service_category_text};
ghost use Rattle.metering_model.specs.Row.{by_kind};
ghost use Rattle.charge_row.specs.Inner.Prices.{GivesColumns};

use crate::words::service_category_text;
use metering_model::Kind;
use rating::Price;
use sheet_text::{Issuer, PriceRow};

/// The columns that the price in force gives.
#[derive(Clone, Copy)]
pub(crate) struct PriceColumns<'a> {
    pub(crate) description: &'a [u8],
    pub(crate) service: &'a [u8],
    pub(crate) service_category: &'a [u8],
    pub(crate) sku: Option<&'a [u8]>,
    pub(crate) price_id: Option<&'a [u8]>,
    pub(crate) pricing_unit: Option<&'a [u8]>,
    pub(crate) list: Option<Price>,
    pub(crate) contracted: Option<Price>,
}

pub(crate) fn price_columns<'a>(
    issuer: &'a Issuer,
    price: Option<&'a PriceRow>,
    key: &'a [u8],
) -> PriceColumns<'a>
    ensures description { result.description.now
        ≡ option_map_or (λ p. p.description) (option_copied price.entry) key.now }
    ensures service { result.service.now
        ≡ option_map_or (λ p. p.service) (option_copied price.entry) issuer.now.other_service }
    ensures service_category { result.service_category.now
        ≡ option_map_or (λ p. service_category_text p.category) (option_copied price.entry)
        (codes "Other") }
    ensures gives { GivesColumns (option_copied price.entry) result }
{
    match price {
        Some(price) => PriceColumns {
            description: price.description().as_bytes(),
            service: price.service().as_bytes(),
            service_category: service_category_text(price.category()),
            sku: Some(price.sku().as_bytes()),
            price_id: Some(price.price_id().as_bytes()),
            pricing_unit: Some(price.pricing_unit().as_bytes()),
            list: Some(price.list()),
            contracted: Some(price.contracted()),
        },
        None => PriceColumns {
            description: key,
            service: issuer.other_service().as_bytes(),
            service_category: b"Other",
            sku: None,
            price_id: None,
            pricing_unit: None,
            list: None,
            contracted: None,
        },
    }
}

/// ConsumedUnit: usage alone is consumed.
pub(crate) fn consumed_unit<'a>(kind: Kind, price: Option<&'a PriceRow>) -> Option<&'a [u8]>
    ensures { option_copied result
        ≡ by_kind kind (option_map (λ p. p.consumed_unit) (option_copied price.entry)) None None }
{
    match kind {
        Kind::Usage => match price {
            Some(price) => Some(price.consumed_unit().as_bytes()),
            None => None,
        },
        Kind::Purchase | Kind::Credit | Kind::Tax | Kind::Adjustment => None,
    }
}
