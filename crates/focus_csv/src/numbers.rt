//! The pieces of numbers. One is spelled again only where it is another than in the row before.

ghost use Rattle.std.specs.Prelude.{◌≡◌, ◌∷◌, [], string_bytes, IsTrue, OnOk};
ghost use Rattle.metering_model.specs.NumberText.{spelling};
ghost use Rattle.metering_model.specs.File.{quantity_or_null, price_or_null, quoted};
ghost use Rattle.focus_row.specs.Rows.{model_row};
ghost use Rattle.focus_csv.specs.Inner.Runs.{behind};
ghost use Rattle.focus_csv.specs.Inner.Pieces.{AreNumbersOf, number_bytes};

use focus_row::FocusRow;
use fx_money::{Cost, Delta, Price};
use std::alloc::{AllocError, Global};

/// The numbers of a line, all but the first after a comma.
#[derive(Drop)]
pub(crate) struct NumberPieces {
    pub(crate) billed_cost: String,
    pub(crate) consumed_quantity: String,
    pub(crate) contracted_cost: String,
    pub(crate) contracted_unit_price: String,
    pub(crate) effective_cost: String,
    pub(crate) list_cost: String,
    pub(crate) list_unit_price: String,
    pub(crate) pricing_quantity: String,
}

/// Makes the text a comma.
fn begin(text: &mut String) -> Result<(), AllocError>
    ensures { OnOk result (string_bytes text.new ≡ 44 ∷ []) }
{
    text.clear();
    text.push_str(",")
}

// ---- costs

fn is_same_cost(before: Cost, cost: Cost) -> bool
    ensures { IsTrue result → before ≡ cost }
{
    before.units() == cost.units()
}

/// Makes the text that of the cost that begins a line. One that is held is of the cost before.
fn set_first(text: &mut String, is_held: bool, before: Cost, cost: Cost) -> Result<(), AllocError>
    requires { IsTrue is_held → string_bytes text.old ≡ quoted (spelling 12 before) }
    ensures { OnOk result (string_bytes text.new ≡ quoted (spelling 12 cost)) }
{
    if is_held && is_same_cost(before, cost) {
        return Ok(());
    }
    // For the proof alone: its clause says how great a cost can be.
    let _units = cost.units();
    text.clear();
    cost.write_to(text)
}

/// Makes the text that of a cost, by copying the spelling of an equal one if that is at hand. One that is held is of
/// the cost before.
fn set_cost(
    text: &mut String,
    is_held: bool,
    before: Cost,
    cost: Cost,
    other: Cost,
    spelled: &String,
) -> Result<(), AllocError>
    requires held { IsTrue is_held → string_bytes text.old ≡ behind (spelling 12 before ∷ []) }
    requires spelled { string_bytes spelled.now ≡ quoted (spelling 12 other) }
    ensures { OnOk result (string_bytes text.new ≡ behind (spelling 12 cost ∷ [])) }
{
    if is_held && is_same_cost(before, cost) {
        return Ok(());
    }
    begin(text)?;
    if cost.units() == other.units() {
        text.push_str(spelled.as_str())
    } else {
        cost.write_to(text)
    }
}

// ---- quantities

/// Makes the text that of a quantity, and nothing but the comma for null.
fn spell_quantity(text: &mut String, quantity: Option<Delta>) -> Result<(), AllocError>
    ensures { OnOk result (string_bytes text.new ≡ behind (quantity_or_null quantity ∷ [])) }
{
    begin(text)?;
    match quantity {
        Some(quantity) => {
            // For the proof alone: its clause says how great a quantity can be.
            let _millionths = quantity.millionths();
            quantity.write_to(text)
        }
        None => Ok(()),
    }
}

/// Makes the text that of a quantity. One that is held is of the quantity before, and stays where that is there and the
/// same.
fn set_quantity(
    text: &mut String,
    is_held: bool,
    before: Option<Delta>,
    quantity: Option<Delta>,
) -> Result<(), AllocError>
    requires { IsTrue is_held → string_bytes text.old ≡ behind (quantity_or_null before ∷ []) }
    ensures { OnOk result (string_bytes text.new ≡ behind (quantity_or_null quantity ∷ [])) }
{
    match (is_held, before, quantity) {
        (true, Some(before), Some(quantity)) if before.millionths() == quantity.millionths() => {
            Ok(())
        }
        _ => spell_quantity(text, quantity),
    }
}

// ---- unit prices

/// Makes the text that of a unit price, and nothing but the comma for null.
fn spell_price(text: &mut String, price: Option<Price>) -> Result<(), AllocError>
    ensures { OnOk result (string_bytes text.new ≡ behind (price_or_null price ∷ [])) }
{
    begin(text)?;
    match price {
        Some(price) => {
            // For the proof alone: its clause says how great a price can be.
            let _millionths = price.millionths();
            price.write_to(text)
        }
        None => Ok(()),
    }
}

/// Makes the text that of a unit price. One that is held is of the price before, and stays where that is there and the
/// same.
fn set_price(
    text: &mut String,
    is_held: bool,
    before: Option<Price>,
    price: Option<Price>,
) -> Result<(), AllocError>
    requires { IsTrue is_held → string_bytes text.old ≡ behind (price_or_null before ∷ []) }
    ensures { OnOk result (string_bytes text.new ≡ behind (price_or_null price ∷ [])) }
{
    match (is_held, before, price) {
        (true, Some(before), Some(price)) if before.millionths() == price.millionths() => Ok(()),
        _ => spell_price(text, price),
    }
}

// ---- all of a row

impl NumberPieces {
    /// Pieces of no row, all of them empty.
    pub(crate) fn new(alloc: Global) -> NumberPieces
        ensures { number_bytes result ≡ [] }
    {
        NumberPieces {
            billed_cost: String::new(alloc),
            consumed_quantity: String::new(alloc),
            contracted_cost: String::new(alloc),
            contracted_unit_price: String::new(alloc),
            effective_cost: String::new(alloc),
            list_cost: String::new(alloc),
            list_unit_price: String::new(alloc),
            pricing_quantity: String::new(alloc),
        }
    }

    /// Makes the pieces those of a row, and only those again that differ from the row before, if they are held from it.
    pub(crate) fn set(
        &mut self,
        are_held: bool,
        before: &FocusRow<'_>,
        row: &FocusRow<'_>,
    ) -> Result<(), AllocError>
        requires { IsTrue are_held → AreNumbersOf self.old (model_row before.now) }
        ensures { OnOk result (AreNumbersOf self.new (model_row row.now)) }
    {
        let billed = row.billed_cost;
        let Ok(()) = set_first(&mut self.billed_cost, are_held, before.billed_cost, billed) else {
            return Err(AllocError);
        };
        let spelled = &self.billed_cost;
        let Ok(()) = set_cost(
            &mut self.contracted_cost,
            are_held,
            before.contracted_cost,
            row.contracted_cost,
            billed,
            spelled,
        ) else {
            return Err(AllocError);
        };
        let Ok(()) = set_cost(
            &mut self.effective_cost,
            are_held,
            before.effective_cost,
            row.effective_cost,
            billed,
            spelled,
        ) else {
            return Err(AllocError);
        };
        let Ok(()) = set_cost(
            &mut self.list_cost,
            are_held,
            before.list_cost,
            row.list_cost,
            billed,
            spelled,
        ) else {
            return Err(AllocError);
        };
        let Ok(()) = set_quantity(
            &mut self.consumed_quantity,
            are_held,
            before.consumed_quantity,
            row.consumed_quantity,
        ) else {
            return Err(AllocError);
        };
        let Ok(()) = set_quantity(
            &mut self.pricing_quantity,
            are_held,
            before.pricing_quantity,
            row.pricing_quantity,
        ) else {
            return Err(AllocError);
        };
        let Ok(()) = set_price(
            &mut self.contracted_unit_price,
            are_held,
            before.contracted_unit_price,
            row.contracted_unit_price,
        ) else {
            return Err(AllocError);
        };
        set_price(
            &mut self.list_unit_price,
            are_held,
            before.list_unit_price,
            row.list_unit_price,
        )
    }
}
