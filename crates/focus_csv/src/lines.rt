//! The lines of the file.

ghost use Rattle.std.specs.Prelude.{◌≡◌, ◌<◌, ◌++◌, ◌∷◌, [], false, length, map, slice_index_or, IfSome, IsTrue, OnErr, OnOk};
ghost use Rattle.std.specs.List.{flat_map};
ghost use Rattle.metering_model.specs.File.{header_line, row_text};
ghost use Rattle.focus_row.specs.Rows.{model_row};
ghost use Rattle.focus_csv.specs.Inner.Beginnings.{BeginsWith};
ghost use Rattle.focus_csv.specs.Inner.Pieces.{AreOf};

use crate::fields::LINE_BYTES;
use crate::pieces::LinePieces;
use focus_row::FocusRow;
use std::alloc::AllocError;
use std::marker::Model;

/// The pieces of the last line, and the row that they are of: the next line is made of them, whatever batch its row
/// is of.
#[derive(Drop)]
pub(crate) struct HeldLine<'a> {
    pieces: LinePieces,
    /// There is none before the first line.
    row: Option<FocusRow<'a>>,
}

impl<'a> Model for HeldLine<'a> {
    ghost use Rattle.std.specs.Prelude.{⊤};
    ghost use Rattle.std.specs.Option.{option_map};
    ghost use Rattle.focus_row.specs.Rows.{model_row};
    ghost use Rattle.focus_csv.specs.Inner.Pieces.{AreOfLast};

    ghost Value = { ⊤ };

    ghost view = { λ _. tt };

    ghost invariant = { λ h. AreOfLast (option_map model_row h.row) h.pieces };
}

/// The row at a place.
fn row_at<'a, 'b>(rows: &'a [FocusRow<'b>], i: usize) -> &'a FocusRow<'b>
    requires { i < length rows.now }
    ensures { result.now ≡ slice_index_or rows.now i result.now }
{
    &rows[i]
}

/// The row that is held. Where there is none, no piece is held either, and any row does: it is the first of the next ones.
fn row_before<'x, 'a>(held: &'x Option<FocusRow<'a>>, rows: &'x [FocusRow<'a>]) -> &'x FocusRow<'a>
    requires { 0 < length rows.now }
    ensures { IfSome held.now (λ row. result.now ≡ row) }
{
    match held {
        Some(row) => row,
        None => row_at(rows, 0),
    }
}

/// Appends the lines of rows that follow another one, whose pieces may be held; then those of the last are. At an
/// allocation failure the text is as before, or has some of the lines after it, and none are held.
pub(crate) fn put_lines<'x, 'a>(
    pieces: &mut LinePieces,
    last: &'x FocusRow<'a>,
    rows: &'x [FocusRow<'a>],
    text: &mut Vec<u8>,
) -> Result<(), AllocError>
    requires { IsTrue pieces.old.are_held → AreOf pieces.old (model_row last.now) }
    ensures put { OnOk result
        (text.new.items ≡ text.old.items ++ flat_map row_text (map model_row rows.now)) }
    ensures held { OnOk result (IsTrue pieces.new.are_held → AreOf pieces.new
        (model_row (slice_index_or (last.now ∷ rows.now) (length rows.now) last.now))) }
    ensures begins { OnErr result (BeginsWith text.new.items text.old.items) }
    ensures forgotten { OnErr result (pieces.new.are_held ≡ false) }
{
    let mut line = [0; LINE_BYTES];
    let mut before = last;
    for i in 0..rows.len() {
        let row = row_at(rows, i);
        pieces.set(before, row)?;
        let Ok(()) = pieces.put(&mut line, text) else {
            pieces.forget();
            return Err(AllocError);
        };
        before = row;
    }
    Ok(())
}

impl<'a> HeldLine<'a> {
    /// Before the first line: whatever the pieces were, they are made anew.
    pub(crate) fn of(pieces: LinePieces) -> HeldLine<'a> {
        let mut unheld = pieces;
        unheld.forget();
        HeldLine {
            pieces: unheld,
            row: None,
        }
    }

    /// The pieces, whose memory may be used again.
    pub(crate) fn into_pieces(self) -> LinePieces {
        self.pieces
    }

    /// Appends the lines of the rows, in order, and takes the last of them out. At an allocation failure the text is as
    /// before, or has some of the lines after it.
    pub(crate) fn put_lines(
        &mut self,
        rows: &mut Vec<FocusRow<'a>>,
        text: &mut Vec<u8>,
    ) -> Result<(), AllocError>
        ensures put { OnOk result
            (text.new.items ≡ text.old.items ++ flat_map row_text (map model_row rows.old.items)) }
        ensures begins { OnErr result (BeginsWith text.new.items text.old.items) }
    {
        if rows.is_empty() {
            return Ok(());
        }
        put_lines(&mut self.pieces, row_before(&self.row, rows), rows, text)?;
        self.row = rows.pop();
        Ok(())
    }
}

/// The header line of every file: the names of the 38 columns in order, and a line feed.
pub fn header_text() -> &'static [u8]
    ensures { result.now ≡ header_line ++ 10 ∷ [] }
{
    b"\
        BilledCost,BillingAccountId,BillingAccountName,BillingCurrency,BillingPeriodEnd,\
        BillingPeriodStart,ChargeCategory,ChargeClass,ChargeDescription,ChargeFrequency,\
        ChargePeriodEnd,ChargePeriodStart,CommitmentDiscountCategory,CommitmentDiscountId,\
        CommitmentDiscountStatus,CommitmentDiscountType,ConsumedQuantity,ConsumedUnit,\
        ContractedCost,ContractedUnitPrice,EffectiveCost,InvoiceIssuerName,ListCost,ListUnitPrice,\
        PricingCategory,PricingQuantity,PricingUnit,ProviderName,PublisherName,RegionId,RegionName,\
        ResourceId,ServiceCategory,ServiceName,SkuId,SkuPriceId,SubAccountId,Tags\n"
}
