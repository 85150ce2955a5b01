//! The first commitment that is another.

ghost use Rattle.std.specs.Prelude.{◌≡◌, ◌↔◌, All, IsTrue, MatchOption};
ghost use Rattle.std.specs.Option.{option_copied};
ghost use Rattle.sheet_changes.specs.Changes.{IsFirstUnlike};
ghost use Rattle.sheet_changes.specs.Inner.Compared.{HasSame};

use price_sheet::{Commitment, Sheet};

fn is_same(old: Option<&Commitment>, new: Option<&Commitment>) -> bool
    ensures { IsTrue result ↔ (option_copied new.entry ≡ option_copied old.entry) }
{
    match old {
        Some(old) => match new {
            Some(new) => new.same(old),
            None => false,
        },
        None => new.is_none(),
    }
}

/// Whether the two sheets have the same under the id of a commitment.
fn has_same(old: &Sheet, new: &Sheet, commitment: &Commitment) -> bool
    ensures { IsTrue result ↔ HasSame old.now new.now commitment.now }
{
    let id = commitment.id().as_bytes();
    is_same(old.commitment(id), new.commitment(id))
}

/// The id of the first commitment of the old sheet that the new one has not so.
fn first_unlike<'a>(commitments: &'a [Commitment], old: &Sheet, new: &Sheet) -> Option<&'a str>
    requires { commitments.now ≡ old.now.commitments }
    ensures { MatchOption result (All (HasSame old.now new.now) old.now.commitments)
        (λ id. IsFirstUnlike old.now new.now id.now) }
{
    for commitment in commitments {
        if !has_same(old, new, commitment) {
            return Some(commitment.id());
        }
    }
    None
}

/// The id of the first commitment of the old sheet that the new one has not so.
pub(crate) fn first_unlike_commitment<'a>(old: &'a Sheet, new: &Sheet) -> Option<&'a str>
    ensures { MatchOption result (All (HasSame old.now new.now) old.now.commitments)
        (λ id. IsFirstUnlike old.now new.now id.now) }
{
    first_unlike(old.commitments(), old, new)
}
