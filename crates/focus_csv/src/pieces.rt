//! The pieces of one line, held for the next.

ghost use Rattle.std.specs.Prelude.{◌≡◌, [], ◌∷◌, ◌++◌, map, false, IsTrue, OnOk, OnErr};
ghost use Rattle.metering_model.specs.Row.{Row};
ghost use Rattle.metering_model.specs.File.{json_object, row_text};
ghost use Rattle.focus_row.specs.Rows.{model_row};
ghost use Rattle.focus_csv.specs.Inner.Pieces.{AreOf, line_bytes, piece_list};
ghost use Rattle.focus_csv.specs.Inner.Runs.{behind};

use crate::alike::are_alike;
use crate::fields::put_pieces;
use crate::numbers::NumberPieces;
use crate::odd::OddFields;
use crate::tags::set_tags;
use crate::texts::TextPieces;
use focus_row::FocusRow;
use std::alloc::{AllocError, Global};

/// The pieces of the line of a row. Most columns of a row are those of the row before it, and such a piece is not made
/// again. Their memory is held as well.
#[derive(Drop)]
pub(crate) struct LinePieces {
    numbers: NumberPieces,
    texts: TextPieces,
    tags: Vec<u8>,
    odd: OddFields,
    /// Whether they are those of the row before.
    are_held: bool,
}

/// How many pieces a line has, with its line feed.
const PIECES: usize = 22;

impl LinePieces {
    /// Pieces of no row, all of them empty.
    pub(crate) fn new(alloc: Global) -> LinePieces
        ensures empty { line_bytes result ≡ [] }
        ensures forgotten { result.are_held ≡ false }
    {
        LinePieces {
            numbers: NumberPieces::new(alloc),
            texts: TextPieces::new(alloc),
            tags: Vec::new(alloc),
            odd: OddFields::new(alloc),
            are_held: false,
        }
    }

    /// Has the next row's pieces all made, whatever they are now.
    pub(crate) fn forget(&mut self)
        ensures { self.new ≡ record self.old { are_held = false } }
    {
        self.are_held = false;
    }

    /// Makes the piece of the tags. One that is held is of the tags before, and stays where the text of these is the
    /// same.
    fn set_tags(
        &mut self,
        is_held: bool,
        before: &FocusRow<'_>,
        row: &FocusRow<'_>,
    ) -> Result<(), AllocError>
        requires { IsTrue is_held
            → self.old.tags.items ≡ behind (json_object (model_row before.now).tags ∷ []) }
        ensures tags { OnOk result
            (self.new.tags.items ≡ behind (json_object (model_row row.now).tags ∷ [])) }
        ensures numbers { self.new.numbers ≡ self.old.numbers }
        ensures texts { self.new.texts ≡ self.old.texts }
        ensures held { self.new.are_held ≡ self.old.are_held }
    {
        if is_held && are_alike(before.tags.text(), row.tags.text()) {
            return Ok(());
        }
        set_tags(&mut self.odd, &mut self.tags, row.tags)
    }

    /// Makes the pieces those of a row, and only those again that differ from the row before, if they are held from it.
    /// At an allocation failure they are forgotten.
    pub(crate) fn set(
        &mut self,
        before: &FocusRow<'_>,
        row: &FocusRow<'_>,
    ) -> Result<(), AllocError>
        requires { IsTrue self.old.are_held → AreOf self.old (model_row before.now) }
        ensures of { OnOk result (AreOf self.new (model_row row.now)) }
        ensures forgotten { OnErr result (self.new.are_held ≡ false) }
    {
        let are_held = self.are_held;
        self.are_held = false;
        self.numbers.set(are_held, before, row)?;
        self.texts.set(&mut self.odd, are_held, before, row)?;
        self.set_tags(are_held, before, row)?;
        self.are_held = true;
        Ok(())
    }

    /// All pieces in the order of the line, and its line feed.
    fn all(&self) -> [&[u8]; PIECES]
        ensures { map (λ p. p.now) result ≡ piece_list self.now }
    {
        [
            self.numbers.billed_cost.as_bytes(),
            self.texts.billing.as_slice(),
            self.texts.charge.as_slice(),
            self.texts.moment.as_slice(),
            self.numbers.consumed_quantity.as_bytes(),
            self.texts.unit.as_slice(),
            self.numbers.contracted_cost.as_bytes(),
            self.numbers.contracted_unit_price.as_bytes(),
            self.numbers.effective_cost.as_bytes(),
            self.texts.issuer.as_slice(),
            self.numbers.list_cost.as_bytes(),
            self.numbers.list_unit_price.as_bytes(),
            self.texts.category.as_slice(),
            self.numbers.pricing_quantity.as_bytes(),
            self.texts.pricing.as_slice(),
            self.texts.seller.as_slice(),
            self.texts.region.as_slice(),
            self.texts.resource.as_slice(),
            self.texts.service.as_slice(),
            self.texts.account.as_slice(),
            self.tags.as_slice(),
            b"\n",
        ]
    }

    /// Appends the line, put together in room for one. At an allocation failure the text is as before.
    pub(crate) fn put(&self, line: &mut [u8], text: &mut Vec<u8>) -> Result<(), AllocError>
        ensures put { OnOk result
            ((r : Row) → AreOf self.now r → text.new.items ≡ text.old.items ++ row_text r) }
        ensures kept { OnErr result (text.new.items ≡ text.old.items) }
    {
        let begin = text.len();
        match put_pieces(line, text, &self.all()) {
            Ok(()) => Ok(()),
            Err(error) => {
                text.truncate(begin);
                Err(error)
            }
        }
    }
}
