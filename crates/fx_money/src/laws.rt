//! What comparing two numbers says of them. Each law is a function with an empty body.

ghost use Rattle.std.specs.Prelude.{◌≡◌, ◌↔◌, ℕ, ℤ, IsTrue};

use crate::{Cost, Delta, Price, Value};

/// Two numbers of a type are `==` exactly where they are the same number of units.
pub fn equal_is_the_same_number()
    ensures values { (a b : ℤ) → IsTrue (⟦<Value as PartialEq>⟧.eq a b) ↔ (a ≡ b) }
    ensures deltas { (a b : ℤ) → IsTrue (⟦<Delta as PartialEq>⟧.eq a b) ↔ (a ≡ b) }
    ensures prices { (a b : ℕ) → IsTrue (⟦<Price as PartialEq>⟧.eq a b) ↔ (a ≡ b) }
    ensures costs { (a b : ℤ) → IsTrue (⟦<Cost as PartialEq>⟧.eq a b) ↔ (a ≡ b) }
{}
