//! The rows of commitments.

ghost use Rattle.std.specs.Prelude.{◌≡◌, ◌↔◌, IsTrue};
ghost use Rattle.toml.specs.View.{table_view};
ghost use Rattle.sheet_text.specs.RowReading.{commitment_in};
ghost use Rattle.sheet_text.specs.Gives.{Gives};

use crate::keys::{KeyFault, commitment_category_under, label_under, price_under};
use crate::names::Key;
use fx_money::Price;
use metering_model::CommitmentCategory;
use std::alloc::Global;
use std::marker::Model;
use toml::Table;

/// A discount on the usage of the SKU `sku`, which is bought as the SKU `buy`; the two may be one.
#[derive(Drop)]
pub struct Commitment {
    id: String,
    sku: String,
    buy: String,
    category: CommitmentCategory,
    kind: String,
    rate: Price,
}

impl Model for Commitment {
    ghost use Rattle.std.specs.Prelude.{string_bytes};
    ghost use Rattle.metering_model.specs.Sheet as model;

    ghost Value = { model.Commitment };

    ghost view = { λ c. record {
      id = string_bytes c.id;
      sku = string_bytes c.sku;
      buy = string_bytes c.buy;
      category = c.category;
      kind = string_bytes c.kind;
      rate = c.rate;
    } };
}

impl Commitment {
    /// Reads a row of commitments. An error is the first key's fault, in the order of the keys, or an allocation
    /// failure.
    #[tactic(auto, unfolding(crate::specs::RowReading::commitment_in))]
    pub fn read(alloc: Global, table: &Table) -> Result<Commitment, KeyFault>
        ensures { Gives (λ row. row) result (commitment_in (table_view table.now)) }
    {
        let id = label_under(alloc, table, Key::Id)?;
        let sku = label_under(alloc, table, Key::Sku)?;
        let buy = label_under(alloc, table, Key::Buy)?;
        let category = commitment_category_under(table, Key::Category)?;
        let kind = label_under(alloc, table, Key::Kind)?;
        let rate = price_under(table, Key::Rate)?;
        Ok(Commitment {
            id,
            sku,
            buy,
            category,
            kind,
            rate,
        })
    }

    /// The id, by which readings name it.
    pub fn id(&self) -> &str
        ensures { result.now ≡ self.now.id }
    {
        self.id.as_str()
    }

    /// The SKU whose usage it is on.
    pub fn sku(&self) -> &str
        ensures { result.now ≡ self.now.sku }
    {
        self.sku.as_str()
    }

    /// The SKU that it is bought as.
    pub fn buy(&self) -> &str
        ensures { result.now ≡ self.now.buy }
    {
        self.buy.as_str()
    }

    /// Whether it is one of spend or of usage.
    pub fn category(&self) -> CommitmentCategory
        ensures { result ≡ self.now.category }
    {
        self.category
    }

    /// The provider's name of its kind: the key `type` of the sheet.
    pub fn kind(&self) -> &str
        ensures { result.now ≡ self.now.kind }
    {
        self.kind.as_str()
    }

    /// The price of a priced unit under it, in millionths of the currency.
    pub fn rate(&self) -> Price
        ensures { result ≡ self.now.rate }
    {
        self.rate
    }

    /// Whether the two have the same value under each key.
    pub fn same(&self, other: &Commitment) -> bool
        ensures { IsTrue result ↔ (self.now ≡ other.now) }
    {
        self.id == other.id
            && self.sku == other.sku
            && self.buy == other.buy
            && self.category == other.category
            && self.kind == other.kind
            && self.rate == other.rate
    }
}
