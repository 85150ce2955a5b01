//! What comparisons of places say. Each law is a function with an empty body.

ghost use Rattle.std.specs.Prelude.{◌≡◌, ◌↔◌, IsTrue, Some};
ghost use Rattle.std.specs.Ordering.{nat_cmp, ordering_then};

use crate::RecordPlace;

/// Places are equal where they are the same place, and ordered by agent, then by sequence, then by index.
pub fn places_are_compared_by_where_they_stand(a: RecordPlace, b: RecordPlace)
    ensures equality { IsTrue (⟦<RecordPlace as PartialEq>⟧.eq a b) ↔ (a ≡ b) }
    ensures order { ⟦<RecordPlace as PartialOrd>⟧.partial_cmp a b
        ≡ Some (ordering_then (nat_cmp a.agent b.agent)
        (ordering_then (nat_cmp a.seq b.seq) (nat_cmp a.index b.index))) }
{}
