//! What comparisons say. Each law is a function with an empty body.

ghost use Rattle.std.specs.Prelude.{◌≡◌, ◌↔◌, IsTrue};

use crate::fields::Span;
use metering_model::Kind;

/// Spans are equal where both ends are.
pub fn spans_are_compared_by_their_ends(a: Span, b: Span)
    ensures { IsTrue (⟦<Span as PartialEq>⟧.eq a b) ↔ (a ≡ b) }
{}

/// Kinds are equal where they are the same.
pub fn kinds_are_compared_by_name(a: Kind, b: Kind)
    ensures { IsTrue (⟦<Kind as PartialEq>⟧.eq a b) ↔ (a ≡ b) }
{}
