//! From which days a new sheet goes on from an old one.

ghost use Rattle.std.specs.Prelude.{◌≡◌, ◌++◌, List, ℕ, OnOk};
ghost use Rattle.metering_model.specs.Transcript.{line};
ghost use Rattle.sheet_changes.specs.Changes.{IsLikeness, IsLikenessText};
ghost use Rattle.sheet_changes.specs.Likenesses.{likeness_of};

use crate::commitments::first_unlike_commitment;
use crate::days::day_text;
use crate::prices::first_unlike_day;
use price_sheet::Sheet;
use std::alloc::AllocError;
use utc_calendar::Day;

/// From which days a new sheet goes on from an old one: prices that were in force stay, and commitments.
#[derive(Clone, Copy, Drop)]
pub enum Likeness<'a> {
    /// From each day.
    Alike,
    /// From this day and each before it, and from none after it.
    AlikeBefore(Day),
    /// From none: the base month is another.
    UnlikeBase,
    /// From none: the commitment with this id is another, or absent.
    UnlikeCommitment(&'a str),
}

/// From which days a new sheet goes on from an old one. No memory is taken.
pub fn likeness_between<'a>(old: &'a Sheet, new: &Sheet) -> Likeness<'a>
    ensures { IsLikeness old.now new.now (likeness_of result) }
{
    if new.base_month() != old.base_month() {
        return Likeness::UnlikeBase;
    }
    if let Some(id) = first_unlike_commitment(old, new) {
        return Likeness::UnlikeCommitment(id);
    }
    match first_unlike_day(old, new) {
        Some(day) => Likeness::AlikeBefore(day),
        None => Likeness::Alike,
    }
}

/// Appends a word and what stands behind it.
fn put_both(text: &mut Vec<u8>, word: &[u8], behind: &[u8]) -> Result<(), AllocError>
    ensures { OnOk result (text.new.items ≡ text.old.items ++ (word.now ++ behind.now)) }
{
    let Ok(()) = text.extend_from_slice(word) else {
        return Err(AllocError);
    };
    text.extend_from_slice(behind)
}

/// Appends the words of a likeness.
fn put_words(text: &mut Vec<u8>, likeness: &Likeness<'_>) -> Result<(), AllocError>
    ensures { OnOk result ((words : List ℕ) × IsLikenessText (likeness_of likeness.now) words
        × (text.new.items ≡ text.old.items ++ words)) }
{
    match likeness {
        Likeness::Alike => put_both(text, b"alike", b""),
        Likeness::AlikeBefore(day) => put_both(text, b"alike before ", &day_text(*day)),
        Likeness::UnlikeBase => put_both(text, b"unlike base", b""),
        Likeness::UnlikeCommitment(id) => put_both(text, b"unlike commitment ", id.as_bytes()),
    }
}

/// Appends the line of a likeness.
pub(crate) fn put_likeness(text: &mut Vec<u8>, likeness: &Likeness<'_>) -> Result<(), AllocError>
    ensures { OnOk result ((words : List ℕ) × IsLikenessText (likeness_of likeness.now) words
        × (text.new.items ≡ text.old.items ++ line words)) }
{
    let Ok(()) = put_words(text, likeness) else {
        return Err(AllocError);
    };
    text.extend_from_slice(b"\n")
}
