//! Whether two fields are the same.

ghost use Rattle.std.specs.Prelude.{◌≡◌, ◌↔◌, IsTrue};
ghost use Rattle.std.specs.Option.{option_copied};

use byte_text::is_same;

/// Whether two texts are the same bytes.
#[inline(always)]
pub(crate) fn are_alike(left: &[u8], right: &[u8]) -> bool
    ensures { IsTrue result ↔ (left.now ≡ right.now) }
{
    is_same(left, right)
}

/// Whether two texts are the same bytes, or both are null.
#[inline(always)]
pub(crate) fn are_both_alike(left: Option<&[u8]>, right: Option<&[u8]>) -> bool
    ensures { IsTrue result ↔ (option_copied left.entry ≡ option_copied right.entry) }
{
    match (left, right) {
        (Some(left), Some(right)) => are_alike(left, right),
        (None, None) => true,
        _ => false,
    }
}
