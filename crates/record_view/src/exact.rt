//! The exact reader: the fields of a record, and its first fault.

ghost use Rattle.std.specs.Prelude.{◌≡◌, ◌≢◌, ◌<◌, ◌∷◌, [], length, IsTrue, OnOk, IfOk, IfErr, IfSome, IfNone, Ok, Err, true, false, ℕ, List, codes};
ghost use Rattle.metering_model.specs.declared.Version.TheVariants.{B1};
ghost use Rattle.metering_model.specs.BatchReading.{is_same, record_in};
ghost use Rattle.record_view.specs.Parts.{LentText, AreLentApart, lent, parts_at};
ghost use Rattle.record_view.specs.Inner.Placed.{IsPlaced, texts_of};
ghost use Rattle.record_view.specs.Inner.TagParts.{are_tags};
ghost use Rattle.record_view.specs.Lent.{record_of, record_texts, lent_fields};
ghost use Rattle.record_view.specs.Inner.LineFields.{reading_parts, amendment_parts, field_texts, record_of_reading, record_of_amendment};

use crate::field_rules::{
    check_commitment, check_key, check_order, check_sign, check_text, read_count, read_kind,
    read_number, read_stamp, read_tags,
};
use crate::fields::{Field, split_at_byte};
use crate::records::{Reading, Record};
use metering_model::{BatchCode, Version};

/// The fields of a reading after its letter.
#[derive(Clone, Copy)]
pub(crate) struct ReadingFields<'a> {
    pub(crate) start: Field<'a>,
    pub(crate) end: Field<'a>,
    pub(crate) account: Field<'a>,
    pub(crate) resource: Field<'a>,
    pub(crate) key: Field<'a>,
    pub(crate) value: Field<'a>,
    pub(crate) commitment: Field<'a>,
    pub(crate) tags: Field<'a>,
}

/// The fields of an amendment after its letter.
#[derive(Clone, Copy)]
struct AmendmentFields<'a> {
    seq: Field<'a>,
    index: Field<'a>,
    value: Field<'a>,
}

/// The first four fields, and what stands after them, if anything does.
#[tactic(auto, using(crate::proofs::PartLaws::some_part))]
fn first_four<'a>(
    rest: Field<'a>,
) -> Option<(Field<'a>, Field<'a>, Field<'a>, Field<'a>, Field<'a>)>
    requires { IsPlaced (lent rest) }
    ensures none { IfNone result (length (parts_at 124 (lent rest.entry)) < 5) }
    ensures some { IfSome result (λ p. parts_at 124 (lent rest.entry)
        ≡ lent p.0 ∷ lent p.1 ∷ lent p.2 ∷ lent p.3 ∷ parts_at 124 (lent p.4)) }
    ensures placed { IfSome result (λ p. IsPlaced (lent p.4)) }
{
    let (first, rest) = split_at_byte(rest, b'|')?;
    let (second, rest) = split_at_byte(rest, b'|')?;
    let (third, rest) = split_at_byte(rest, b'|')?;
    let (fourth, rest) = split_at_byte(rest, b'|')?;
    Some((first, second, third, fourth, rest))
}

/// The fields of a reading, if there are as many.
#[tactic(auto, using(crate::proofs::PartLaws::some_part))]
fn reading_fields<'a>(rest: Field<'a>) -> Option<ReadingFields<'a>>
    requires { IsPlaced (lent rest) }
    ensures none { IfNone result (length (parts_at 124 (lent rest.entry)) ≢ 8) }
    ensures some { IfSome result (λ f. parts_at 124 (lent rest.entry) ≡ reading_parts f) }
    ensures placed { IfSome result (λ f. IsPlaced (lent f.tags)) }
{
    let (start, end, account, resource, rest) = first_four(rest)?;
    let (key, rest) = split_at_byte(rest, b'|')?;
    let (value, rest) = split_at_byte(rest, b'|')?;
    let (commitment, tags) = split_at_byte(rest, b'|')?;
    match split_at_byte(tags, b'|') {
        Some(_) => None,
        None => Some(ReadingFields {
            start,
            end,
            account,
            resource,
            key,
            value,
            commitment,
            tags,
        }),
    }
}

/// The fields of an amendment, if there are as many.
#[tactic(auto, using(crate::proofs::PartLaws::some_part))]
fn amendment_fields<'a>(rest: Field<'a>) -> Option<AmendmentFields<'a>>
    requires { IsPlaced (lent rest) }
    ensures none { IfNone result (length (parts_at 124 (lent rest.entry)) ≢ 3) }
    ensures some { IfSome result (λ f. parts_at 124 (lent rest.entry) ≡ amendment_parts f) }
{
    let (seq, rest) = split_at_byte(rest, b'|')?;
    let (index, value) = split_at_byte(rest, b'|')?;
    match split_at_byte(value, b'|') {
        Some(_) => None,
        None => Some(AmendmentFields { seq, index, value }),
    }
}

/// The reading of its fields, or the rule that the first bad one breaks.
#[tactic(auto, unfolding(crate::specs::Inner::RecordSteps::reading_in))]
fn read_reading<'a>(letter: &[u8], fields: &ReadingFields<'a>) -> Result<Record<'a>, BatchCode>
    requires { IsPlaced (lent fields.now.tags) }
    ensures ok { IfOk result (λ r. record_of_reading letter.now fields.now ≡ Ok (record_of r)) }
    ensures err { IfErr result (λ e. record_of_reading letter.now fields.now ≡ Err e) }
    ensures lent { IfOk result (λ r. record_texts r ≡ field_texts fields.now) }
    ensures tags { OnOk result (IsTrue (are_tags fields.now.tags.text.now)) }
{
    let kind = read_kind(letter)?;
    let start = read_stamp(fields.start.text)?;
    let end = read_stamp(fields.end.text)?;
    check_order(start, end)?;
    check_text(fields.account.text)?;
    check_text(fields.resource.text)?;
    check_key(fields.key.text)?;
    let value = read_number(fields.value.text)?;
    check_sign(kind, value)?;
    check_commitment(kind, fields.commitment.text)?;
    let tags = read_tags(fields.tags)?;
    Ok(Record::Reading(Reading {
        kind,
        start,
        end,
        start_text: fields.start,
        end_text: fields.end,
        account: fields.account,
        resource: fields.resource,
        key: fields.key,
        value,
        commitment: fields.commitment,
        tags,
        region: None,
    }))
}

/// The amendment of its fields, or the rule that the first bad one breaks.
#[tactic(auto, unfolding(crate::specs::Inner::RecordSteps::amendment_in))]
fn read_amendment<'a>(fields: &AmendmentFields<'_>) -> Result<Record<'a>, BatchCode>
    ensures ok { IfOk result (λ r. record_of_amendment fields.now ≡ Ok (record_of r)) }
    ensures err { IfErr result (λ e. record_of_amendment fields.now ≡ Err e) }
    ensures lent { IfOk result (λ r. record_texts r ≡ []) }
{
    let seq = read_count(fields.seq.text, 1, 1_000_000)?;
    let index = read_count(fields.index.text, 0, 999)? as u16;
    let value = read_number(fields.value.text)?;
    Ok(Record::Amend { seq, index, value })
}

/// Whether it is the letter of an amendment.
pub(crate) fn is_amendment(letter: &[u8]) -> bool
    ensures { result ≡ is_same letter.now (codes "X") }
{
    matches!(letter, [b'X'])
}

/// The record of an amendment's line, from what stands after its letter.
pub(crate) fn amendment_behind<'a>(letter: &[u8], rest: Field<'_>) -> Result<Record<'a>, BatchCode>
    requires placed { IsPlaced (lent rest) }
    requires letter { is_same letter.now (codes "X") ≡ true }
    ensures ok { IfOk result (λ r. (version : Version) →
        record_in version (letter.now ∷ texts_of (parts_at 124 (lent rest.entry)))
        ≡ Ok (record_of r)) }
    ensures err { IfErr result (λ e. (version : Version) →
        record_in version (letter.now ∷ texts_of (parts_at 124 (lent rest.entry))) ≡ Err e) }
    ensures places { IfOk result (λ r. (letter : LentText) →
        record_texts r ≡ lent_fields (letter ∷ parts_at 124 (lent rest.entry))) }
    ensures lent { IfOk result (λ r. record_texts r ≡ []) }
{
    match amendment_fields(rest) {
        Some(fields) => read_amendment(&fields),
        None => Err(BatchCode::Fields),
    }
}

/// The record of any reading's line in format B1, from what stands after its letter.
pub(crate) fn exact_reading<'a>(letter: &[u8], rest: Field<'a>) -> Result<Record<'a>, BatchCode>
    requires placed { IsPlaced (lent rest) }
    requires letter { is_same letter.now (codes "X") ≡ false }
    ensures ok { IfOk result (λ r.
        record_in B1 (letter.now ∷ texts_of (parts_at 124 (lent rest.entry))) ≡ Ok (record_of r)) }
    ensures err { IfErr result (λ e.
        record_in B1 (letter.now ∷ texts_of (parts_at 124 (lent rest.entry))) ≡ Err e) }
    ensures places { IfOk result (λ r. (letter : LentText) →
        record_texts r ≡ lent_fields (letter ∷ parts_at 124 (lent rest.entry))) }
    // What it lends is lent by the parts.
    ensures lent { IfOk result (λ r. (source : List ℕ) (from to : ℕ) →
        AreLentApart source from to (parts_at 124 (lent rest.entry))
        → AreLentApart source from to (record_texts r)) }
{
    match reading_fields(rest) {
        Some(fields) => read_reading(letter, &fields),
        None => Err(BatchCode::Fields),
    }
}
