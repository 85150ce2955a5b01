//! The rows of prices.

ghost use Rattle.std.specs.Prelude.{◌≡◌, ◌≤◌, ◌↔◌, IsTrue};
ghost use Rattle.metering_model.specs.Limits.{most_units};
ghost use Rattle.toml.specs.View.{table_view};
ghost use Rattle.sheet_text.specs.RowReading.{price_row_in};
ghost use Rattle.sheet_text.specs.Gives.{Gives};

use crate::keys::{
    KeyFault, day_under, label_under, per_under, price_under, service_category_under,
};
use crate::names::Key;
use fx_money::Price;
use metering_model::ServiceCategory;
use std::alloc::Global;
use std::marker::Model;
use toml::Table;
use utc_calendar::Day;

/// A price of a SKU from a day on.
#[derive(Drop)]
pub struct PriceRow {
    sku: String,
    price_id: String,
    from: Day,
    description: String,
    service: String,
    category: ServiceCategory,
    consumed_unit: String,
    pricing_unit: String,
    per: u32,
    list: Price,
    contracted: Price,
}

impl Model for PriceRow {
    ghost use Rattle.std.specs.Prelude.{string_bytes, ◌≤◌};
    ghost use Rattle.metering_model.specs.Limits.{most_units};
    ghost use Rattle.metering_model.specs.Sheet as model;

    ghost Value = { model.PriceRow };

    ghost view = { λ r. record {
      sku = string_bytes r.sku;
      price_id = string_bytes r.price_id;
      from = r.from;
      description = string_bytes r.description;
      service = string_bytes r.service;
      category = r.category;
      consumed_unit = string_bytes r.consumed_unit;
      pricing_unit = string_bytes r.pricing_unit;
      per = r.per;
      list = r.list;
      contracted = r.contracted;
    } };

    ghost invariant = { λ r. (1 ≤ r.per) × (r.per ≤ most_units) };
}

impl PriceRow {
    /// Reads a row of prices. An error is the first key's fault, in the order of the keys, or an allocation failure.
    #[tactic(auto, unfolding(crate::specs::RowReading::price_row_in))]
    pub fn read(alloc: Global, table: &Table) -> Result<PriceRow, KeyFault>
        ensures { Gives (λ row. row) result (price_row_in (table_view table.now)) }
    {
        let sku = label_under(alloc, table, Key::Sku)?;
        let price_id = label_under(alloc, table, Key::PriceId)?;
        let from = day_under(table, Key::From)?;
        let description = label_under(alloc, table, Key::Description)?;
        let service = label_under(alloc, table, Key::Service)?;
        let category = service_category_under(table, Key::Category)?;
        let consumed_unit = label_under(alloc, table, Key::ConsumedUnit)?;
        let pricing_unit = label_under(alloc, table, Key::PricingUnit)?;
        let per = per_under(table, Key::Per)?;
        let list = price_under(table, Key::List)?;
        let contracted = price_under(table, Key::Contracted)?;
        Ok(PriceRow {
            sku,
            price_id,
            from,
            description,
            service,
            category,
            consumed_unit,
            pricing_unit,
            per,
            list,
            contracted,
        })
    }

    /// The SKU: what is priced.
    pub fn sku(&self) -> &str
        ensures { result.now ≡ self.now.sku }
    {
        self.sku.as_str()
    }

    /// The provider's name of this price.
    pub fn price_id(&self) -> &str
        ensures { result.now ≡ self.now.price_id }
    {
        self.price_id.as_str()
    }

    /// The first day on which the price holds.
    pub fn from(&self) -> Day
        ensures { result ≡ self.now.from }
    {
        self.from
    }

    /// What the SKU is, in words.
    pub fn description(&self) -> &str
        ensures { result.now ≡ self.now.description }
    {
        self.description.as_str()
    }

    /// The service that the SKU is of.
    pub fn service(&self) -> &str
        ensures { result.now ≡ self.now.service }
    {
        self.service.as_str()
    }

    /// The category of the service.
    pub fn category(&self) -> ServiceCategory
        ensures { result ≡ self.now.category }
    {
        self.category
    }

    /// The unit that is metered.
    pub fn consumed_unit(&self) -> &str
        ensures { result.now ≡ self.now.consumed_unit }
    {
        self.consumed_unit.as_str()
    }

    /// The unit that is priced.
    pub fn pricing_unit(&self) -> &str
        ensures { result.now ≡ self.now.pricing_unit }
    {
        self.pricing_unit.as_str()
    }

    /// How many metered units make one priced unit, from 1 to 1,000,000,000.
    pub fn per(&self) -> u32
        ensures value { result ≡ self.now.per }
        ensures range { (1 ≤ result) × (result ≤ most_units) }
    {
        self.per
    }

    /// The price of a priced unit on the list, in millionths of the currency.
    pub fn list(&self) -> Price
        ensures { result ≡ self.now.list }
    {
        self.list
    }

    /// The price of a priced unit by contract, in millionths of the currency.
    pub fn contracted(&self) -> Price
        ensures { result ≡ self.now.contracted }
    {
        self.contracted
    }

    /// Whether the two have the same value under each key.
    pub fn same(&self, other: &PriceRow) -> bool
        ensures { IsTrue result ↔ (self.now ≡ other.now) }
    {
        self.sku == other.sku
            && self.price_id == other.price_id
            && self.from == other.from
            && self.description == other.description
            && self.service == other.service
            && self.category == other.category
            && self.consumed_unit == other.consumed_unit
            && self.pricing_unit == other.pricing_unit
            && self.per == other.per
            && self.list == other.list
            && self.contracted == other.contracted
    }
}
