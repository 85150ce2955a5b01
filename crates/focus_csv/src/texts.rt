//! The pieces of texts, which a row lends.

ghost use Rattle.std.specs.Prelude.{◌≡◌, ◌∷◌, [], map, IsTrue, OnOk};
ghost use Rattle.std.specs.Option.{option_copied};
ghost use Rattle.metering_model.specs.File.{text_or_null};
ghost use Rattle.focus_row.specs.Rows.{model_row};
ghost use Rattle.focus_csv.specs.Inner.Runs.{behind, billing_columns, charge_columns, moment_columns, seller_columns, region_columns, service_columns};
ghost use Rattle.focus_csv.specs.Inner.Pieces.{AreTextsOf, text_bytes};

use crate::alike::{are_alike, are_both_alike};
use crate::fields::make_piece;
use crate::odd::OddFields;
use focus_row::FocusRow;
use std::alloc::{AllocError, Global};

/// The pieces between the numbers, each with a comma before each of its fields. The columns of a piece mostly change
/// together.
#[derive(Drop)]
pub(crate) struct TextPieces {
    pub(crate) billing: Vec<u8>,
    pub(crate) charge: Vec<u8>,
    pub(crate) moment: Vec<u8>,
    pub(crate) unit: Vec<u8>,
    pub(crate) issuer: Vec<u8>,
    pub(crate) category: Vec<u8>,
    pub(crate) pricing: Vec<u8>,
    pub(crate) seller: Vec<u8>,
    pub(crate) region: Vec<u8>,
    pub(crate) resource: Vec<u8>,
    pub(crate) service: Vec<u8>,
    pub(crate) account: Vec<u8>,
}

/// The text, which is empty for null.
#[inline(always)]
fn text_or_null<'a>(text: Option<&'a [u8]>) -> &'a [u8]
    ensures { result.now ≡ text_or_null (option_copied text.entry) }
{
    match text {
        Some(text) => text,
        None => &[],
    }
}

/// The columns of who bills, and for which period.
#[inline(always)]
#[tactic(auto, unfolding(crate::specs::Inner::Runs::billing_columns))]
fn billing<'a>(row: &'a FocusRow<'a>) -> [&'a [u8]; 5]
    ensures { map (λ f. f.now) result ≡ billing_columns (model_row row.now) }
{
    [
        row.billing_account_id,
        row.billing_account_name,
        row.billing_currency,
        &row.billing_period_end,
        &row.billing_period_start,
    ]
}

/// Makes the piece of one column, whose text is empty for null. One that is held stays where the text is the same.
#[inline(always)]
fn set_single(
    odd: &mut OddFields,
    piece: &mut Vec<u8>,
    is_held: bool,
    before: Option<&[u8]>,
    text: Option<&[u8]>,
) -> Result<(), AllocError>
    requires { IsTrue is_held
        → piece.old.items ≡ behind (text_or_null (option_copied before) ∷ []) }
    ensures { OnOk result
        (piece.new.items ≡ behind (text_or_null (option_copied text.entry) ∷ [])) }
{
    if is_held && are_both_alike(before, text) {
        return Ok(());
    }
    make_piece(odd, piece, &[text_or_null(text)])
}

// Each of these makes the piece that of a row. One that is held is of the row before, and stays where its columns are the same.

/// Who bills, and for which period.
#[tactic(auto, unfolding(crate::specs::Inner::Runs::billing_columns))]
fn set_billing(
    odd: &mut OddFields,
    piece: &mut Vec<u8>,
    are_held: bool,
    before: &FocusRow<'_>,
    row: &FocusRow<'_>,
) -> Result<(), AllocError>
    requires { IsTrue are_held → piece.old.items ≡ behind (billing_columns (model_row before.now)) }
    ensures { OnOk result (piece.new.items ≡ behind (billing_columns (model_row row.now))) }
{
    if are_held
        && are_alike(before.billing_account_id, row.billing_account_id)
        && are_alike(before.billing_account_name, row.billing_account_name)
        && are_alike(before.billing_currency, row.billing_currency)
        && are_alike(&before.billing_period_end, &row.billing_period_end)
        && are_alike(&before.billing_period_start, &row.billing_period_start)
    {
        return Ok(());
    }
    make_piece(odd, piece, &billing(row))
}

/// What is charged.
#[tactic(auto, unfolding(crate::specs::Inner::Runs::charge_columns))]
fn set_charge(
    odd: &mut OddFields,
    piece: &mut Vec<u8>,
    are_held: bool,
    before: &FocusRow<'_>,
    row: &FocusRow<'_>,
) -> Result<(), AllocError>
    requires { IsTrue are_held → piece.old.items ≡ behind (charge_columns (model_row before.now)) }
    ensures { OnOk result (piece.new.items ≡ behind (charge_columns (model_row row.now))) }
{
    if are_held
        && are_alike(before.charge_category, row.charge_category)
        && are_both_alike(before.charge_class, row.charge_class)
        && are_alike(before.charge_description, row.charge_description)
        && are_alike(before.charge_frequency, row.charge_frequency)
    {
        return Ok(());
    }
    make_piece(
        odd,
        piece,
        &[
            row.charge_category,
            text_or_null(row.charge_class),
            row.charge_description,
            row.charge_frequency,
        ],
    )
}

/// When it was, and under which commitment.
#[tactic(auto, unfolding(crate::specs::Inner::Runs::moment_columns))]
fn set_moment(
    odd: &mut OddFields,
    piece: &mut Vec<u8>,
    are_held: bool,
    before: &FocusRow<'_>,
    row: &FocusRow<'_>,
) -> Result<(), AllocError>
    requires { IsTrue are_held → piece.old.items ≡ behind (moment_columns (model_row before.now)) }
    ensures { OnOk result (piece.new.items ≡ behind (moment_columns (model_row row.now))) }
{
    if are_held
        && are_alike(before.charge_period_end, row.charge_period_end)
        && are_alike(before.charge_period_start, row.charge_period_start)
        && are_both_alike(
            before.commitment_discount_category,
            row.commitment_discount_category,
        )
        && are_both_alike(before.commitment_discount_id, row.commitment_discount_id)
        && are_both_alike(
            before.commitment_discount_status,
            row.commitment_discount_status,
        )
        && are_both_alike(
            before.commitment_discount_type,
            row.commitment_discount_type,
        )
    {
        return Ok(());
    }
    make_piece(
        odd,
        piece,
        &[
            row.charge_period_end,
            row.charge_period_start,
            text_or_null(row.commitment_discount_category),
            text_or_null(row.commitment_discount_id),
            text_or_null(row.commitment_discount_status),
            text_or_null(row.commitment_discount_type),
        ],
    )
}

/// Who provides it, and who publishes it.
#[tactic(auto, unfolding(crate::specs::Inner::Runs::seller_columns))]
fn set_seller(
    odd: &mut OddFields,
    piece: &mut Vec<u8>,
    are_held: bool,
    before: &FocusRow<'_>,
    row: &FocusRow<'_>,
) -> Result<(), AllocError>
    requires { IsTrue are_held → piece.old.items ≡ behind (seller_columns (model_row before.now)) }
    ensures { OnOk result (piece.new.items ≡ behind (seller_columns (model_row row.now))) }
{
    if are_held
        && are_alike(before.provider_name, row.provider_name)
        && are_alike(before.publisher_name, row.publisher_name)
    {
        return Ok(());
    }
    make_piece(odd, piece, &[row.provider_name, row.publisher_name])
}

/// Where it was.
#[tactic(auto, unfolding(crate::specs::Inner::Runs::region_columns))]
fn set_region(
    odd: &mut OddFields,
    piece: &mut Vec<u8>,
    are_held: bool,
    before: &FocusRow<'_>,
    row: &FocusRow<'_>,
) -> Result<(), AllocError>
    requires { IsTrue are_held → piece.old.items ≡ behind (region_columns (model_row before.now)) }
    ensures { OnOk result (piece.new.items ≡ behind (region_columns (model_row row.now))) }
{
    if are_held
        && are_both_alike(before.region_id, row.region_id)
        && are_both_alike(before.region_name, row.region_name)
    {
        return Ok(());
    }
    make_piece(
        odd,
        piece,
        &[text_or_null(row.region_id), text_or_null(row.region_name)],
    )
}

/// Which service, at which price.
#[tactic(auto, unfolding(crate::specs::Inner::Runs::service_columns))]
fn set_service(
    odd: &mut OddFields,
    piece: &mut Vec<u8>,
    are_held: bool,
    before: &FocusRow<'_>,
    row: &FocusRow<'_>,
) -> Result<(), AllocError>
    requires { IsTrue are_held → piece.old.items ≡ behind (service_columns (model_row before.now)) }
    ensures { OnOk result (piece.new.items ≡ behind (service_columns (model_row row.now))) }
{
    if are_held
        && are_alike(before.service_category, row.service_category)
        && are_alike(before.service_name, row.service_name)
        && are_both_alike(before.sku_id, row.sku_id)
        && are_both_alike(before.sku_price_id, row.sku_price_id)
    {
        return Ok(());
    }
    make_piece(
        odd,
        piece,
        &[
            row.service_category,
            row.service_name,
            text_or_null(row.sku_id),
            text_or_null(row.sku_price_id),
        ],
    )
}

impl TextPieces {
    /// Pieces of no row, all of them empty.
    pub(crate) fn new(alloc: Global) -> TextPieces
        ensures { text_bytes result ≡ [] }
    {
        TextPieces {
            billing: Vec::new(alloc),
            charge: Vec::new(alloc),
            moment: Vec::new(alloc),
            unit: Vec::new(alloc),
            issuer: Vec::new(alloc),
            category: Vec::new(alloc),
            pricing: Vec::new(alloc),
            seller: Vec::new(alloc),
            region: Vec::new(alloc),
            resource: Vec::new(alloc),
            service: Vec::new(alloc),
            account: Vec::new(alloc),
        }
    }

    /// Makes the pieces those of a row, and only those again that differ from the row before, if they are held from it.
    pub(crate) fn set(
        &mut self,
        odd: &mut OddFields,
        are_held: bool,
        before: &FocusRow<'_>,
        row: &FocusRow<'_>,
    ) -> Result<(), AllocError>
        requires { IsTrue are_held → AreTextsOf self.old (model_row before.now) }
        ensures { OnOk result (AreTextsOf self.new (model_row row.now)) }
    {
        let Ok(()) = set_billing(odd, &mut self.billing, are_held, before, row) else {
            return Err(AllocError);
        };
        let Ok(()) = set_charge(odd, &mut self.charge, are_held, before, row) else {
            return Err(AllocError);
        };
        let Ok(()) = set_moment(odd, &mut self.moment, are_held, before, row) else {
            return Err(AllocError);
        };
        let Ok(()) = set_single(
            odd,
            &mut self.unit,
            are_held,
            before.consumed_unit,
            row.consumed_unit,
        ) else {
            return Err(AllocError);
        };
        let Ok(()) = set_single(
            odd,
            &mut self.issuer,
            are_held,
            Some(before.invoice_issuer_name),
            Some(row.invoice_issuer_name),
        ) else {
            return Err(AllocError);
        };
        let Ok(()) = set_single(
            odd,
            &mut self.category,
            are_held,
            before.pricing_category,
            row.pricing_category,
        ) else {
            return Err(AllocError);
        };
        let Ok(()) = set_single(
            odd,
            &mut self.pricing,
            are_held,
            before.pricing_unit,
            row.pricing_unit,
        ) else {
            return Err(AllocError);
        };
        let Ok(()) = set_seller(odd, &mut self.seller, are_held, before, row) else {
            return Err(AllocError);
        };
        let Ok(()) = set_region(odd, &mut self.region, are_held, before, row) else {
            return Err(AllocError);
        };
        let Ok(()) = set_single(
            odd,
            &mut self.resource,
            are_held,
            before.resource_id,
            row.resource_id,
        ) else {
            return Err(AllocError);
        };
        let Ok(()) = set_service(odd, &mut self.service, are_held, before, row) else {
            return Err(AllocError);
        };
        set_single(
            odd,
            &mut self.account,
            are_held,
            before.sub_account_id,
            row.sub_account_id,
        )
    }
}
