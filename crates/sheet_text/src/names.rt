//! The keys that a sheet and an issuer may have.

ghost use Rattle.std.specs.Prelude.{◌≡◌};
ghost use Rattle.sheet_text.specs.Names.{key_name};

use std::error::Error;
use std::fmt::{Display, Formatter, Result, Write};

/// A key of a sheet or of an issuer. One that stands in several tables is one variant.
#[derive(Clone, Copy, Debug, PartialEq, Eq, Drop)]
pub enum Key {
    // At the top of a sheet.
    Base,
    Price,
    Commitment,
    Region,
    // In its rows.
    Sku,
    PriceId,
    From,
    Description,
    Service,
    Category,
    ConsumedUnit,
    PricingUnit,
    Per,
    List,
    Contracted,
    Id,
    Buy,
    Kind,
    Rate,
    Name,
    // Of an issuer.
    Provider,
    Publisher,
    Issuer,
    AccountId,
    AccountName,
    Currency,
    OtherService,
}

impl Key {
    /// The word that stands for it in TOML.
    #[tactic(auto, unfolding(crate::specs::Names::key_name))]
    pub fn name(self) -> &'static str
        ensures { result.now ≡ key_name self }
    {
        match self {
            Key::Base => "base",
            Key::Price => "price",
            Key::Commitment => "commitment",
            Key::Region => "region",
            Key::Sku => "sku",
            Key::PriceId => "price_id",
            Key::From => "from",
            Key::Description => "description",
            Key::Service => "service",
            Key::Category => "category",
            Key::ConsumedUnit => "consumed_unit",
            Key::PricingUnit => "pricing_unit",
            Key::Per => "per",
            Key::List => "list",
            Key::Contracted => "contracted",
            Key::Id => "id",
            Key::Buy => "buy",
            Key::Kind => "type",
            Key::Rate => "rate",
            Key::Name => "name",
            Key::Provider => "provider",
            Key::Publisher => "publisher",
            Key::Issuer => "issuer",
            Key::AccountId => "account_id",
            Key::AccountName => "account_name",
            Key::Currency => "currency",
            Key::OtherService => "other_service",
        }
    }
}

impl Error for Key {}

// Not by `thiserror`, whose arms, one for each variant, take the prover longer than any function here.
impl Display for Key {
    fn fmt<W: Write>(&self, f: &mut Formatter<W>) -> Result {
        f.write_str(self.name())
    }
}
