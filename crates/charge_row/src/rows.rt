//! The row of a reading.

ghost use Rattle.std.specs.Prelude.{◌≡◌, ◌≤ℤ◌, ℕ, true, pos};
ghost use Rattle.std.specs.Option.{option_copied};
ghost use Rattle.metering_model.specs.Sheet.{Sheet as ModelSheet};
ghost use Rattle.metering_model.specs.Dates.{IsBaseMonth};
ghost use Rattle.metering_model.specs.Batch.{is_priced};
ghost use Rattle.metering_model.specs.Row.{row, priced_kind, price_of, commitment_of, region_of, charge};
ghost use Rattle.rating.specs.Lent.{model_reading};
ghost use Rattle.charge_row.specs.FocusRows.{model_row};
ghost use Rattle.charge_row.specs.PeriodTexts.{ArePeriodTexts};
ghost use Rattle.charge_row.specs.Regions.{IsNamed};

use crate::columns::FocusRow;
use crate::commitments::{commitment_columns, commitment_status, pricing_category};
use crate::prices::{consumed_unit, price_columns};
use crate::regions::{RegionColumns, region_columns};
use crate::words::{category_text, class_text, frequency_text, or_null};
use metering_model::{ChargeClass, Kind};
use period_cut::{Month, Period};
use rating::{Rated, Reading, Sheet, Value, commitment_of, price_of, priced_kind, rate, rate_flat};
use sheet_text::{Commitment, Issuer, PriceRow};

/// What all rows of a billing period share: who bills, and the period's start and end.
#[derive(Clone, Copy)]
pub struct Billing<'a> {
    /// Who bills.
    pub issuer: &'a Issuer,
    /// BillingPeriodStart, `YYYY-MM-DDTHH:mm:ssZ`.
    pub start_text: [u8; 20],
    /// BillingPeriodEnd, `YYYY-MM-DDTHH:mm:ssZ`.
    pub end_text: [u8; 20],
}

impl<'a> Billing<'a> {
    /// For an issuer, in a period counted from a base month.
    pub fn new(issuer: &'a Issuer, base: Month, period: Period) -> Billing<'a>
        requires base { IsBaseMonth base }
        ensures issuer { result.issuer.now ≡ issuer.now }
        ensures texts { ArePeriodTexts base period result.start_text result.end_text }
    {
        Billing {
            issuer,
            start_text: period.start_text(base),
            end_text: period.end_text(base),
        }
    }
}

/// What a reading costs, from an old value to a new one.
fn charge(
    kind: Kind,
    price: Option<&PriceRow>,
    commitment: Option<&Commitment>,
    was: Value,
    now: Value,
) -> Rated
    requires was { is_priced kind ≡ true → pos 0 ≤ℤ was }
    requires value { is_priced kind ≡ true → pos 0 ≤ℤ now }
    ensures { result ≡ charge (priced_kind kind) (option_copied price.entry)
        (option_copied commitment.entry) was now }
{
    let Some(kind) = priced_kind(kind) else {
        return rate_flat(was, now);
    };
    match price {
        Some(price) => rate(price, commitment, kind, was, now),
        None => rate_flat(was, now),
    }
}

/// The row of a reading by its price, its commitment and its region, from an old value to a new one.
fn row_by<'a>(
    billing: &Billing<'a>,
    price: Option<&'a PriceRow>,
    commitment: Option<&'a Commitment>,
    region: RegionColumns<'a>,
    reading: &Reading<'a>,
    class: ChargeClass,
    was: Value,
    now: Value,
) -> FocusRow<'a>
    requires was { is_priced reading.now.kind ≡ true → pos 0 ≤ℤ was }
    requires value { is_priced reading.now.kind ≡ true → pos 0 ≤ℤ now }
    ensures region_id { result.region_id ≡ region.entry.id }
    ensures region_name { result.region_name ≡ region.entry.name }
    ensures row { (sheet : ModelSheet) (period : ℕ)
        → ArePeriodTexts sheet.base period billing.now.start_text billing.now.end_text
        → price_of sheet (model_reading reading.now) ≡ option_copied price.entry
        → commitment_of sheet (model_reading reading.now) ≡ option_copied commitment.entry
        → region_of (model_reading reading.now) ≡ option_copied region.entry.id
        → IsNamed sheet (option_copied region.entry.id) (option_copied region.entry.name)
        → model_row result
        ≡ row sheet billing.now.issuer.now (model_reading reading.now) period class was now }
{
    let issuer = billing.issuer;
    let cost = charge(reading.kind, price, commitment, was, now);
    let priced = price_columns(issuer, price, reading.key.text);
    let committed = commitment_columns(commitment);
    FocusRow {
        billed_cost: cost.billed,
        billing_account_id: issuer.account_id().as_bytes(),
        billing_account_name: issuer.account_name().as_bytes(),
        billing_currency: issuer.currency().as_bytes(),
        billing_period_end: billing.end_text,
        billing_period_start: billing.start_text,
        charge_category: category_text(reading.kind),
        charge_class: class_text(class),
        charge_description: priced.description,
        charge_frequency: frequency_text(reading.kind),
        charge_period_end: reading.end_text.text,
        charge_period_start: reading.start_text.text,
        commitment_discount_category: committed.category,
        commitment_discount_id: committed.id,
        commitment_discount_status: commitment_status(reading.kind, commitment),
        commitment_discount_type: committed.kind,
        consumed_quantity: cost.consumed,
        consumed_unit: consumed_unit(reading.kind, price),
        contracted_cost: cost.contracted,
        contracted_unit_price: priced.contracted,
        effective_cost: cost.effective,
        invoice_issuer_name: issuer.issuer().as_bytes(),
        list_cost: cost.list,
        list_unit_price: priced.list,
        pricing_category: pricing_category(reading.kind, commitment),
        pricing_quantity: cost.priced,
        pricing_unit: priced.pricing_unit,
        provider_name: issuer.provider().as_bytes(),
        publisher_name: issuer.publisher().as_bytes(),
        region_id: region.id,
        region_name: region.name,
        resource_id: or_null(reading.resource.text),
        service_category: priced.service_category,
        service_name: priced.service,
        sku_id: priced.sku,
        sku_price_id: priced.price_id,
        sub_account_id: or_null(reading.account.text),
        tags: reading.tags(),
    }
}

/// The row of a reading in the billing period, from an old value to a new one, neither negative for usage and
/// purchases: at the price in force on the day of its start, under the commitment that it names and in its region.
///
/// `near` is any region's columns by this sheet, or none; the row is the same with each.
pub fn row<'a>(
    billing: &Billing<'a>,
    sheet: &'a Sheet,
    near: RegionColumns<'a>,
    reading: &Reading<'a>,
    class: ChargeClass,
    was: Value,
    now: Value,
) -> FocusRow<'a>
    requires was { is_priced reading.now.kind ≡ true → pos 0 ≤ℤ was }
    requires value { is_priced reading.now.kind ≡ true → pos 0 ≤ℤ now }
    requires near { IsNamed sheet.now (option_copied near.id) (option_copied near.name) }
    ensures row { (period : ℕ)
        → ArePeriodTexts sheet.now.base period billing.now.start_text billing.now.end_text
        → model_row result
        ≡ row sheet.now billing.now.issuer.now (model_reading reading.now) period class was now }
    ensures named { IsNamed sheet.now (option_copied result.region_id)
        (option_copied result.region_name) }
{
    let price = price_of(sheet, reading);
    let commitment = commitment_of(sheet, reading);
    let region = region_columns(sheet, reading, near);
    row_by(billing, price, commitment, region, reading, class, was, now)
}
