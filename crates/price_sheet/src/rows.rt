//! What the rows of the three tables have in common.

ghost use Rattle.std.specs.Prelude.{◌≡◌, ◌↔◌, IsTrue};

use sheet_text::{Commitment, PriceRow, Region};

/// A row of a table.
pub(crate) trait Row {
    /// Whether the two have the same value under each key.
    fn is_same_row(&self, other: &Self) -> bool
        ensures { IsTrue result ↔ (self.now ≡ other.now) };
}

impl Row for PriceRow {
    fn is_same_row(&self, other: &PriceRow) -> bool {
        self.same(other)
    }
}

impl Row for Commitment {
    fn is_same_row(&self, other: &Commitment) -> bool {
        self.same(other)
    }
}

impl Row for Region {
    fn is_same_row(&self, other: &Region) -> bool {
        self.same(other)
    }
}

/// A row that readings name by its id.
pub(crate) trait Named: Row {
    ghost use Rattle.std.specs.Prelude.{ℕ, List};

    ghost id: { Self → List ℕ };

    /// The bytes of its id.
    fn id_bytes(&self) -> &[u8]
        ensures { result.now ≡ id self.now };
}

impl Named for Commitment {
    ghost id = { λ c. c.id };

    fn id_bytes(&self) -> &[u8] {
        self.id().as_bytes()
    }
}

impl Named for Region {
    ghost id = { λ x. x.id };

    fn id_bytes(&self) -> &[u8] {
        self.id().as_bytes()
    }
}

/// Whether the rows are the same, in the same order.
pub(crate) fn same_rows<R: Row>(left: &[R], right: &[R]) -> bool
    ensures { IsTrue result ↔ (left.now ≡ right.now) }
{
    if left.len() != right.len() {
        return false;
    }
    for i in 0..left.len() {
        if !left[i].is_same_row(&right[i]) {
            return false;
        }
    }
    true
}
