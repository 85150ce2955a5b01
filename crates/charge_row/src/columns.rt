//! A charge, column by column.

use rating::{Cost, Delta, Price, Tags};

/// A row of a FOCUS file. Its texts are lent by the batch, the sheet, the issuer and the program; null is `None`.
///
/// Costs are in units of 10^-12 of the currency, quantities and unit prices in millionths, and
/// dates are texts `YYYY-MM-DDTHH:mm:ssZ` in UTC.
#[derive(Clone, Copy)]
pub struct FocusRow<'a> {
    pub billed_cost: Cost,
    pub billing_account_id: &'a [u8],
    pub billing_account_name: &'a [u8],
    pub billing_currency: &'a [u8],
    pub billing_period_end: [u8; 20],
    pub billing_period_start: [u8; 20],
    pub charge_category: &'a [u8],
    pub charge_class: Option<&'a [u8]>,
    pub charge_description: &'a [u8],
    pub charge_frequency: &'a [u8],
    pub charge_period_end: &'a [u8],
    pub charge_period_start: &'a [u8],
    pub commitment_discount_category: Option<&'a [u8]>,
    pub commitment_discount_id: Option<&'a [u8]>,
    pub commitment_discount_status: Option<&'a [u8]>,
    pub commitment_discount_type: Option<&'a [u8]>,
    pub consumed_quantity: Option<Delta>,
    pub consumed_unit: Option<&'a [u8]>,
    pub contracted_cost: Cost,
    pub contracted_unit_price: Option<Price>,
    pub effective_cost: Cost,
    pub invoice_issuer_name: &'a [u8],
    pub list_cost: Cost,
    pub list_unit_price: Option<Price>,
    pub pricing_category: Option<&'a [u8]>,
    pub pricing_quantity: Option<Delta>,
    pub pricing_unit: Option<&'a [u8]>,
    pub provider_name: &'a [u8],
    pub publisher_name: &'a [u8],
    pub region_id: Option<&'a [u8]>,
    pub region_name: Option<&'a [u8]>,
    pub resource_id: Option<&'a [u8]>,
    pub service_category: &'a [u8],
    pub service_name: &'a [u8],
    pub sku_id: Option<&'a [u8]>,
    pub sku_price_id: Option<&'a [u8]>,
    pub sub_account_id: Option<&'a [u8]>,
    /// By rising keys.
    pub tags: Tags<'a>,
}
