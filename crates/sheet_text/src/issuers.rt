//! Who bills.

ghost use Rattle.std.specs.Prelude.{◌≡◌, ◌≢◌, Ok, Err, IfOk, IfErr, IsTrue, ◌↔◌, string_bytes};
ghost use Rattle.std.specs.List.{list_all};
ghost use Rattle.toml.specs.View.{table_view};
ghost use Rattle.metering_model.specs.SheetRules.{IsIssuer, is_capital};
ghost use Rattle.sheet_text.specs.IssuerReading.{is_currency, currency_under, issuer_fault, issuer_in, issuer_of_text};
ghost use Rattle.sheet_text.specs.Gives.{Gives};
ghost use Rattle.sheet_text.specs.Samples.{sample_issuer};

use crate::faults::IssuerFault;
use crate::keys::{KeyFault, label_under, text_under};
use crate::names::Key;
use std::alloc::{AllocError, Global};
use std::marker::Model;
use toml::Table;

/// Who provides, publishes and invoices the charges, who pays them, and in which currency.
#[derive(Drop)]
pub struct Issuer {
    provider: String,
    publisher: String,
    issuer: String,
    account_id: String,
    account_name: String,
    currency: String,
    other_service: String,
}

impl Model for Issuer {
    ghost use Rattle.std.specs.Prelude.{string_bytes};
    ghost use Rattle.metering_model.specs.Sheet as model;

    ghost Value = { model.Issuer };

    ghost view = { λ i. record {
      provider = string_bytes i.provider;
      publisher = string_bytes i.publisher;
      issuer = string_bytes i.issuer;
      account_id = string_bytes i.account_id;
      account_name = string_bytes i.account_name;
      currency = string_bytes i.currency;
      other_service = string_bytes i.other_service;
    } };
}

impl Issuer {
    /// Drops the issuer. A crate above calls it in place of `drop`, for the prover's time alone (docs/DECISIONS.md).
    pub fn release(self) {}

    /// Reads an issuer from TOML. An error is the text's first fault, or OutOfMemory.
    #[tactic(auto, unfolding(crate::specs::IssuerReading::issuer_of_text))]
    pub fn read(alloc: Global, text: &str) -> Result<Issuer, IssuerFault>
        ensures taken { IfOk result (λ issuer. issuer_of_text text.now ≡ Ok issuer) }
        ensures refused { IfErr result
            (λ fault. fault ≢ IssuerFault.OutOfMemory → issuer_of_text text.now ≡ Err fault) }
        ensures rules { IfOk result IsIssuer }
    {
        let table = match toml::table_from_str(alloc, text) {
            Ok(table) => table,
            Err(error) => {
                if error.is_memory() {
                    return Err(IssuerFault::OutOfMemory);
                }
                return Err(IssuerFault::NotToml);
            }
        };
        match Issuer::of_table(alloc, &table) {
            Ok(issuer) => Ok(issuer),
            Err(fault) => Err(issuer_fault(fault)),
        }
    }

    #[tactic(auto, unfolding(crate::specs::IssuerReading::issuer_in))]
    fn of_table(alloc: Global, table: &Table) -> Result<Issuer, KeyFault>
        ensures gives { Gives (λ i. i) result (issuer_in (table_view table.now)) }
        ensures rules { IfOk result IsIssuer }
    {
        let provider = label_under(alloc, table, Key::Provider)?;
        let publisher = label_under(alloc, table, Key::Publisher)?;
        let issuer = label_under(alloc, table, Key::Issuer)?;
        let account_id = label_under(alloc, table, Key::AccountId)?;
        let account_name = label_under(alloc, table, Key::AccountName)?;
        let currency = currency_under(alloc, table, Key::Currency)?;
        let other_service = label_under(alloc, table, Key::OtherService)?;
        Ok(Issuer {
            provider,
            publisher,
            issuer,
            account_id,
            account_name,
            currency,
            other_service,
        })
    }

    /// The issuer of the worked examples. An error is an allocation failure.
    pub fn sample(alloc: Global) -> Result<Issuer, AllocError>
        ensures { IfOk result (λ issuer. issuer ≡ sample_issuer) }
    {
        Ok(Issuer {
            provider: String::from_str(alloc, "Sample Cloud")?,
            publisher: String::from_str(alloc, "Sample Cloud")?,
            issuer: String::from_str(alloc, "Sample Cloud Ltd")?,
            account_id: String::from_str(alloc, "A-100")?,
            account_name: String::from_str(alloc, "Payer")?,
            currency: String::from_str(alloc, "USD")?,
            other_service: String::from_str(alloc, "Billing")?,
        })
    }

    /// Whether the two have the same texts.
    pub fn same(&self, other: &Issuer) -> bool
        ensures { IsTrue result ↔ (self.now ≡ other.now) }
    {
        self.provider == other.provider
            && self.publisher == other.publisher
            && self.issuer == other.issuer
            && self.account_id == other.account_id
            && self.account_name == other.account_name
            && self.currency == other.currency
            && self.other_service == other.other_service
    }

    /// Who provides the services.
    pub fn provider(&self) -> &str
        ensures { result.now ≡ self.now.provider }
    {
        self.provider.as_str()
    }

    /// Who publishes them.
    pub fn publisher(&self) -> &str
        ensures { result.now ≡ self.now.publisher }
    {
        self.publisher.as_str()
    }

    /// Who writes the invoice.
    pub fn issuer(&self) -> &str
        ensures { result.now ≡ self.now.issuer }
    {
        self.issuer.as_str()
    }

    /// The account that is billed.
    pub fn account_id(&self) -> &str
        ensures { result.now ≡ self.now.account_id }
    {
        self.account_id.as_str()
    }

    /// The name of that account.
    pub fn account_name(&self) -> &str
        ensures { result.now ≡ self.now.account_name }
    {
        self.account_name.as_str()
    }

    /// The currency of all prices and amounts: three letters A to Z in an issuer that was read, and in the sample's.
    pub fn currency(&self) -> &str
        ensures { result.now ≡ self.now.currency }
    {
        self.currency.as_str()
    }

    /// The service of credits, taxes and adjustments.
    pub fn other_service(&self) -> &str
        ensures { result.now ≡ self.now.other_service }
    {
        self.other_service.as_str()
    }
}

/// The fault of a key, told of an issuer.
fn issuer_fault(fault: KeyFault) -> IssuerFault
    ensures { result ≡ issuer_fault fault }
{
    match fault {
        KeyFault::Missing(key) => IssuerFault::Missing(key),
        KeyFault::BadValue(key) => IssuerFault::BadValue(key),
        KeyFault::OutOfMemory => IssuerFault::OutOfMemory,
    }
}

/// Whether it is nothing but letters A to Z.
fn is_in_capitals(text: &[u8]) -> bool
    ensures { result ≡ list_all is_capital text.now }
{
    text.iter().all(|byte| *byte >= b'A' && *byte <= b'Z')
}

/// Whether it is three letters A to Z.
fn is_currency(text: &[u8]) -> bool
    ensures { result ≡ is_currency text.now }
{
    is_in_capitals(text) && text.len() == 3
}

/// The currency under a key.
#[tactic(auto, unfolding(crate::specs::IssuerReading::currency_under))]
fn currency_under(alloc: Global, table: &Table, key: Key) -> Result<String, KeyFault>
    ensures gives { Gives (λ t. string_bytes t) result (currency_under key (table_view table.now)) }
    ensures currency { IfOk result (λ t. IsTrue (is_currency (string_bytes t))) }
{
    let text = text_under(table, key)?;
    if !is_currency(text.as_bytes()) {
        return Err(KeyFault::BadValue(key));
    }
    Ok(String::from_str(alloc, text)?)
}
