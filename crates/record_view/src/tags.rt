//! The tags of a reading.

ghost use Rattle.std.specs.Prelude.{◌≡◌, ◌==◌, ◌∷◌, [], false, map, IsTrue, OnSome, IfSome, MatchOption, Some, length, take, ◌<◌, ◌≤◌};
ghost use Rattle.std.specs.Option.{option_copied, option_map};
ghost use Rattle.std.specs.List.{list_any};
ghost use Rattle.metering_model.specs.Batch.{is_below, is_text};
ghost use Rattle.metering_model.specs.BatchReading.{tags_in};
ghost use Rattle.record_view.specs.Parts.{lent, parts_at};
ghost use Rattle.record_view.specs.Inner.Placed.{IsPlaced};
ghost use Rattle.record_view.specs.Plain.{is_plain};
ghost use Rattle.record_view.specs.TagTexts.{tag_of, tags_at};
ghost use Rattle.record_view.specs.Inner.TagParts.{are_tags, key_in, if_above, rise_from, IsFirstPart};

use crate::fields::{Field, Span, cut, split_at_byte};
use crate::plain::{key_end, part_end};
use crate::texts::is_text;

/// The tags of a reading, by rising keys: pairs of key and value.
#[derive(Clone, Copy)]
pub struct Tags<'a> {
    rest: Field<'a>,
    ghost placed: { IsPlaced (lent rest) },
    ghost tags: { IsTrue (are_tags rest.text.now) },
}

/// The key of a tag, if the text has one.
fn text_key<'a>(part: Field<'a>) -> Option<&'a [u8]>
    requires placed { IsPlaced (lent part) }
    requires text { IsTrue (is_text part.text.now) }
    ensures { option_copied result ≡ key_in part.entry.text.now }
{
    let (key, _) = split_at_byte(part, b'=')?;
    if key.text.is_empty() {
        None
    } else {
        Some(key.text)
    }
}

/// The key of a tag, if the bytes are one.
fn tag_key<'a>(part: Field<'a>) -> Option<&'a [u8]>
    requires { IsPlaced (lent part) }
    ensures { option_copied result ≡ key_in part.entry.text.now }
{
    if is_text(part.text) {
        text_key(part)
    } else {
        None
    }
}

/// Whether the first text is below the second, by bytes.
fn is_below(first: &[u8], second: &[u8]) -> bool
    ensures { result ≡ is_below first.now second.now }
{
    first.cmp(second).is_lt()
}

/// The key of a tag, if the text is one and the key is above the last one.
fn key_above<'a>(last: &[u8], part: Field<'a>) -> Option<&'a [u8]>
    requires { IsPlaced (lent part) }
    ensures { option_copied result ≡ if_above last.now (key_in part.entry.text.now) }
{
    let key = tag_key(part)?;
    if is_below(last, key) { Some(key) } else { None }
}

/// Whether the parts between `;` are tags whose keys rise.
fn keys_rise(text: Field<'_>) -> bool
    requires { IsPlaced (lent text) }
    ensures { result ≡ rise_from (Some []) (parts_at 59 (lent text.entry)) }
{
    let mut last: &[u8] = &[];
    let mut rest = text;
    while let Some((part, after)) = split_at_byte(rest, b';') {
        match key_above(last, part) {
            Some(key) => last = key,
            None => return false,
        }
        rest = after;
    }
    key_above(last, rest).is_some()
}

/// Whether the text is empty or tags.
fn are_tags(text: Field<'_>) -> bool
    requires { IsPlaced (lent text) }
    ensures { result ≡ are_tags text.entry.text.now }
{
    text.text.is_empty() || keys_rise(text)
}

/// Whether the first text is below the second. Most texts differ in their first bytes.
#[inline(always)]
fn is_soon_below(first: &[u8], second: &[u8]) -> bool
    ensures { result ≡ is_below first.now second.now }
{
    if second.is_empty() {
        return false;
    }
    if first.is_empty() || first[0] < second[0] {
        return true;
    }
    first[0] == second[0] && is_below(first, second)
}

/// The key of the tag that the bytes before a place are, if they are one. They are plain.
#[inline(always)]
fn plain_key(text: &[u8], end: usize) -> Option<&[u8]>
    requires within { end ≤ length text.now }
    requires plain { IsTrue (is_plain (take end text.now)) }
    ensures { option_copied result ≡ key_in (take end text.now) }
{
    let at = key_end(text, end);
    if at == 0 || at >= end {
        return None;
    }
    Some(&text[..at])
}

/// The same, if it is above the last one.
#[inline(always)]
fn plain_key_above<'a>(last: &[u8], text: &'a [u8], end: usize) -> Option<&'a [u8]>
    requires within { end ≤ length text.now }
    requires plain { IsTrue (is_plain (take end text.now)) }
    ensures { option_copied result ≡ if_above last.now (key_in (take end text.now)) }
{
    let key = plain_key(text, end)?;
    if is_soon_below(last, key) {
        Some(key)
    } else {
        None
    }
}

/// Whether all bytes are plain, and the parts between `;` are tags whose keys rise.
fn plain_keys_rise(text: Field<'_>) -> bool
    requires { IsPlaced (lent text) }
    ensures rise { IsTrue result → IsTrue (rise_from (Some []) (parts_at 59 (lent text.entry))) }
    ensures bars { IsTrue result → list_any (λ c. c == 124) text.entry.text.now ≡ false }
    ensures all { IsTrue (is_plain text.entry.text.now)
        → IsTrue (rise_from (Some []) (parts_at 59 (lent text.entry))) → IsTrue result }
{
    let mut last: &[u8] = &[];
    let mut rest = text;
    while let Some(end) = part_end(rest.text) {
        if rest.text[end] != b';' {
            return false;
        }
        match plain_key_above(last, rest.text, end) {
            Some(key) => last = key,
            None => return false,
        }
        rest = cut(rest, end).1;
    }
    plain_key_above(last, rest.text, rest.text.len()).is_some()
}

/// Whether all bytes are plain, and the text is empty or tags.
pub(crate) fn are_plain_tags(text: Field<'_>) -> bool
    requires { IsPlaced (lent text) }
    ensures tags { IsTrue result → IsTrue (are_tags text.entry.text.now) }
    ensures bars { IsTrue result → list_any (λ c. c == 124) text.entry.text.now ≡ false }
    ensures all { IsTrue (is_plain text.entry.text.now) → IsTrue (are_tags text.entry.text.now)
        → IsTrue result }
{
    if text.text.is_empty() {
        true
    } else {
        plain_keys_rise(text)
    }
}

/// Nothing, where a text ends.
fn end_of<'a>(text: Field<'a>) -> Field<'a>
    requires { IsPlaced (lent text) }
    ensures empty { result.text.now ≡ [] }
    ensures placed { IsPlaced (lent result) }
{
    Field {
        text: &[],
        span: Span {
            from: text.span.to,
            to: text.span.to,
        },
    }
}

/// The first of the parts between `;`, and what stands after it.
fn first_part<'a>(text: Field<'a>) -> (Field<'a>, Field<'a>)
    requires placed { IsPlaced (lent text) }
    requires some { 0 < length text.text.now }
    requires tags { IsTrue (are_tags text.text.now) }
    ensures placed { IsPlaced (lent result.0) × IsPlaced (lent result.1) }
    ensures first { IsFirstPart (lent text.entry) (lent result.0) (lent result.1) }
{
    match split_at_byte(text, b';') {
        Some(parts) => parts,
        None => (text, end_of(text)),
    }
}

impl<'a> Tags<'a> {
    ghost use Rattle.record_view.specs.Lent.{lent_tags, lent_pair};

    /// The tags that a text is, if it is empty or tags.
    pub(crate) fn read(text: Field<'a>) -> Option<Tags<'a>>
        requires { IsPlaced (lent text) }
        ensures read { option_map (λ t. map tag_of (lent_tags t)) result
            ≡ tags_in text.entry.text.now }
        ensures tags { OnSome result (IsTrue (are_tags text.entry.text.now)) }
        ensures lent { IfSome result (λ t. lent_tags t ≡ tags_at (lent text.entry)) }
    {
        if are_tags(text) {
            Some(Tags { rest: text })
        } else {
            None
        }
    }

    /// The tags that a text is known to be.
    pub(crate) fn known(text: Field<'a>) -> Tags<'a>
        requires placed { IsPlaced (lent text) }
        requires tags { IsTrue (are_tags text.text.now) }
        ensures { lent_tags result ≡ tags_at (lent text.entry) }
    {
        Tags { rest: text }
    }

    /// The tags as they stand in the batch: `key=value` joined by semicolons, or the empty text.
    pub fn text(&self) -> &'a [u8]
        ensures { tags_in result.now ≡ Some (map tag_of (lent_tags self.now)) }
    {
        self.rest.text
    }

    /// The first tag, and the others.
    fn split_first(self) -> Option<((Field<'a>, Field<'a>), Tags<'a>)>
        ensures { MatchOption result (lent_tags self.entry ≡ [])
            (λ p. lent_tags self.entry ≡ lent_pair p.0 ∷ lent_tags p.1) }
    {
        if self.rest.text.is_empty() {
            return None;
        }
        let (part, rest) = first_part(self.rest);
        let pair = split_at_byte(part, b'=')?;
        Some((pair, Tags { rest }))
    }
}

impl<'a> Iterator for Tags<'a> {
    ghost use Rattle.std.specs.Iterator.{YieldsFirstBy, item_count};
    ghost use Rattle.record_view.specs.Lent.{lent_tags, lent_pair};

    type Item = (Field<'a>, Field<'a>);

    ghost next_gives = { YieldsFirstBy lent_pair lent_tags };

    ghost remaining = { item_count lent_tags };

    fn next(&mut self) -> Option<(Field<'a>, Field<'a>)> {
        let (pair, rest) = self.split_first()?;
        *self = rest;
        Some(pair)
    }
}
