//! Texts that a batch lends, and where they stand in it.

ghost use Rattle.std.specs.Prelude.{◌≡◌, ◌+◌, ◌<◌, ◌≤◌, ◌==◌, ◌∷◌, ◌++◌, [], length, slice_range, position, is_some, MatchOption, IfSome};
ghost use Rattle.std.specs.List.{list_any};
ghost use Rattle.record_view.specs.Parts.{lent, part_before, part_after, parts_at};
ghost use Rattle.record_view.specs.Inner.Placed.{IsPlaced, front_of, back_of};

use memchr::memrchr;

/// A place in the bytes of a batch, from `from` (included) to `to` (not included), in bytes from its beginning.
#[derive(Clone, Copy, PartialEq, Eq, Debug)]
pub struct Span {
    pub from: u32,
    pub to: u32,
}

/// A text that a batch lends, and its place there.
#[derive(Clone, Copy)]
pub struct Field<'a> {
    /// The bytes.
    pub text: &'a [u8],
    /// Where they stand in the batch.
    pub span: Span,
}

/// The text at a span of the source.
pub(crate) fn field_at<'a>(source: &'a [u8], span: Span) -> Field<'a>
    requires ordered { span.from ≤ span.to }
    requires within { span.to ≤ length source.now }
    ensures text { result.text.now ≡ slice_range source.now span.from span.to }
    ensures span { result.span ≡ span }
    ensures placed { IsPlaced (lent result) }
{
    Field {
        text: &source[span.from as usize..span.to as usize],
        span,
    }
}

/// Where the first such byte stands. This is quick where it stands near the front.
fn first_place(text: &[u8], byte: u8) -> Option<usize>
    ensures { result ≡ position (λ c. c == byte) text.now }
{
    text.iter().position(|c| *c == byte)
}

/// What stands before a byte of a text, and what stands after it.
#[inline(always)]
pub(crate) fn cut<'a>(whole: Field<'a>, at: usize) -> (Field<'a>, Field<'a>)
    requires placed { IsPlaced (lent whole) }
    requires within { at < length whole.text.now }
    ensures before { lent result.0 ≡ front_of at (lent whole.entry) }
    ensures after { lent result.1 ≡ back_of at (lent whole.entry) }
{
    let place = whole.span.from + at as u32;
    let before = Field {
        text: &whole.text[..at],
        span: Span {
            from: whole.span.from,
            to: place,
        },
    };
    let after = Field {
        text: &whole.text[at + 1..],
        span: Span {
            from: place + 1,
            to: whole.span.to,
        },
    };
    (before, after)
}

/// What stands before and after the first such byte of a text, if it has one.
pub(crate) fn split_at_byte<'a>(whole: Field<'a>, byte: u8) -> Option<(Field<'a>, Field<'a>)>
    requires { IsPlaced (lent whole) }
    ensures found { is_some result ≡ list_any (λ c. c == byte) whole.entry.text.now }
    ensures texts { IfSome result (λ p. (lent p.0 ≡ part_before byte (lent whole.entry))
        × (lent p.1 ≡ part_after byte (lent whole.entry))) }
    ensures parts { MatchOption result (parts_at byte (lent whole.entry) ≡ lent whole.entry ∷ [])
        (λ p. parts_at byte (lent whole.entry) ≡ lent p.0 ∷ parts_at byte (lent p.1)) }
    ensures shorter { IfSome result (λ p.
        length p.0.text.now + length p.1.text.now + 1 ≡ length whole.entry.text.now) }
    ensures placed { IfSome result (λ p. IsPlaced (lent p.0) × IsPlaced (lent p.1)) }
{
    let position = first_place(whole.text, byte)?;
    Some(cut(whole, position))
}

/// What stands before and after the last such byte of a text, if it has one.
pub(crate) fn split_at_last<'a>(whole: Field<'a>, byte: u8) -> Option<(Field<'a>, Field<'a>)>
    requires { IsPlaced (lent whole) }
    ensures parts { MatchOption result (parts_at byte (lent whole.entry) ≡ lent whole.entry ∷ [])
        (λ p. parts_at byte (lent whole.entry) ≡ parts_at byte (lent p.0) ++ lent p.1 ∷ []) }
    ensures adjoin { IfSome result (λ p. p.1.span.from ≡ p.0.span.to + 1) }
    ensures placed { IfSome result (λ p. IsPlaced (lent p.0)) }
{
    let position = memrchr(byte, whole.text)?;
    Some(cut(whole, position))
}
