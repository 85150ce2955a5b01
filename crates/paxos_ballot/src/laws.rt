//! What makes ballots and majorities work. Each law is a function with an empty body.

ghost use Rattle.std.specs.Prelude.{◌≡◌, ◌↔◌, ℕ, ◌<◌, length, true, Some, IsTrue, slice_get};
ghost use Rattle.metering_model.specs.Ballot.{Nodes, ballot_of, has_majority};

use crate::ballots::Ballot;

/// A ballot is of one node and one round, and a later round's is greater than any earlier one's.
pub fn ballots_differ_and_rise()
    ensures differ { (nodes r s i j : ℕ) → i < nodes → j < nodes
        → ballot_of r i nodes ≡ ballot_of s j nodes → (r ≡ s) × (i ≡ j) }
    ensures rise { (nodes r s i j : ℕ) → i < nodes → r < s
        → ballot_of r i nodes < ballot_of s j nodes }
{}

/// Any two majorities of the nodes have a node in common.
pub fn two_majorities_share_a_node()
    ensures { (nodes : ℕ) (one other : Nodes) → length one ≡ nodes → length other ≡ nodes →
        IsTrue (has_majority nodes one) → IsTrue (has_majority nodes other) →
        (i : ℕ) × (slice_get one i ≡ Some true) × (slice_get other i ≡ Some true) }
{}

/// Ballots are equal where their numbers are.
pub fn ballots_are_compared_by_number(a: Ballot, b: Ballot)
    ensures { IsTrue (⟦<Ballot as PartialEq>⟧.eq a b) ↔ (a ≡ b) }
{}
