//! The quick reader of a plain record, which leaves any other to the exact one.

ghost use Rattle.std.specs.Prelude.{◌≡◌, ◌≢◌, ◌∷◌, OnOk, IfOk, IfErr, IfSome, IfNone, Ok, false, ℕ, List, codes};
ghost use Rattle.metering_model.specs.Batch as model;
ghost use Rattle.metering_model.specs.declared.Version.TheVariants.{B1};
ghost use Rattle.metering_model.specs.BatchReading.{is_same, record_in};
ghost use Rattle.record_view.specs.Parts.{LentText, AreLentApart, lent, parts_at};
ghost use Rattle.record_view.specs.Inner.Placed.{IsPlaced, texts_of};
ghost use Rattle.record_view.specs.Lent.{record_of, record_texts, lent_fields};
ghost use Rattle.record_view.specs.Inner.LineFields.{reading_parts, field_texts, record_of_reading, HaveStamps, ArePlainFields, IsPlainRest, IsPlainBehind};

use crate::exact::ReadingFields;
use crate::field_rules::{
    check_order, check_plain_commitment, check_plain_key, check_sign, read_kind, read_number,
    read_stamps,
};
use crate::fields::Field;
use crate::plain::{split_plain, split_stamp};
use crate::records::{Reading, Record};
use crate::regions::{before_region, in_region};
use crate::stamps::StampReader;
use crate::tags::{Tags, are_plain_tags};
use metering_model::{BatchCode, Version};

/// The fields of a reading, where those that hold texts and tags are plain, and each stamp has the
/// length of one.
#[inline(always)]
fn plain_fields<'a>(rest: Field<'a>) -> Option<ReadingFields<'a>>
    requires { IsPlaced (lent rest) }
    ensures parts { IfSome result
        (λ f. HaveStamps f → parts_at 124 (lent rest.entry) ≡ reading_parts f) }
    ensures plain { IfSome result ArePlainFields }
    ensures none { IfNone result (IsPlainRest rest.entry.text.now → ⊥) }
    ensures stamps { IfSome result (λ f. IsPlainRest rest.entry.text.now → HaveStamps f) }
{
    let (start, rest) = split_stamp(rest)?;
    let (end, rest) = split_stamp(rest)?;
    let (account, rest) = split_plain(rest)?;
    let (resource, rest) = split_plain(rest)?;
    let (key, rest) = split_plain(rest)?;
    let (value, rest) = split_plain(rest)?;
    let (commitment, tags) = split_plain(rest)?;
    if are_plain_tags(tags) {
        Some(ReadingFields {
            start,
            end,
            account,
            resource,
            key,
            value,
            commitment,
            tags,
        })
    } else {
        None
    }
}

/// The reading of plain fields. An error says that they are no reading's, and not which rule is the first that they
/// break.
#[inline(always)]
fn plain_reading<'a>(
    letter: &[u8],
    plain: &ReadingFields<'a>,
    stamps: &mut StampReader<'a>,
) -> Result<Record<'a>, BatchCode>
    requires { ArePlainFields plain.now }
    ensures stamps { OnOk result (HaveStamps plain.now) }
    ensures ok { IfOk result (λ r. record_of_reading letter.now plain.now ≡ Ok (record_of r)) }
    ensures err { IfErr result
        (λ e. (r : model.Record) → record_of_reading letter.now plain.now ≢ Ok r) }
    ensures lent { IfOk result (λ r. record_texts r ≡ field_texts plain.now) }
{
    let kind = read_kind(letter)?;
    let (start, end) = read_stamps(plain.start.text, plain.end.text, stamps)?;
    check_order(start, end)?;
    check_plain_key(plain.key.text)?;
    let value = read_number(plain.value.text)?;
    check_sign(kind, value)?;
    check_plain_commitment(kind, plain.commitment.text)?;
    let tags = Tags::known(plain.tags);
    Ok(Record::Reading(Reading {
        kind,
        start,
        end,
        start_text: plain.start,
        end_text: plain.end,
        account: plain.account,
        resource: plain.resource,
        key: plain.key,
        value,
        commitment: plain.commitment,
        tags,
        region: None,
    }))
}

/// The record of a reading's line of plain bytes in format B1, from what stands after its letter.
#[inline(always)]
pub(crate) fn plain_record<'a>(
    letter: &[u8],
    rest: Field<'a>,
    stamps: &mut StampReader<'a>,
) -> Option<Record<'a>>
    requires { IsPlaced (lent rest) }
    ensures ok { IfSome result (λ r.
        record_in B1 (letter.now ∷ texts_of (parts_at 124 (lent rest.entry))) ≡ Ok (record_of r)) }
    ensures places { IfSome result (λ r. (letter : LentText) →
        record_texts r ≡ lent_fields (letter ∷ parts_at 124 (lent rest.entry))) }
    ensures lent { IfSome result (λ r. (source : List ℕ) (from to : ℕ) →
        AreLentApart source from to (parts_at 124 (lent rest.entry))
        → AreLentApart source from to (record_texts r)) }
    ensures none { IfNone result (IsPlainBehind B1 letter.now rest.entry.text.now → ⊥) }
{
    let fields = plain_fields(rest)?;
    match plain_reading(letter, &fields, stamps) {
        Ok(record) => Some(record),
        Err(_) => None,
    }
}

/// The record of a reading's line in either format, plain but for its region, from what stands after its letter.
#[inline(always)]
pub(crate) fn plain_behind<'a>(
    version: Version,
    letter: &[u8],
    rest: Field<'a>,
    stamps: &mut StampReader<'a>,
) -> Option<Record<'a>>
    requires placed { IsPlaced (lent rest) }
    requires letter { is_same letter.now (codes "X") ≡ false }
    ensures ok { IfSome result (λ r.
        record_in version (letter.now ∷ texts_of (parts_at 124 (lent rest.entry)))
        ≡ Ok (record_of r)) }
    ensures places { IfSome result (λ r. (letter : LentText) →
        record_texts r ≡ lent_fields (letter ∷ parts_at 124 (lent rest.entry))) }
    ensures lent { IfSome result (λ r. (source : List ℕ) (from to : ℕ) →
        AreLentApart source from to (parts_at 124 (lent rest.entry))
        → AreLentApart source from to (record_texts r)) }
    ensures none { IfNone result (IsPlainBehind version letter.now rest.entry.text.now → ⊥) }
{
    let (front, region) = before_region(version, rest)?;
    match plain_record(letter, front, stamps) {
        Some(record) => match region {
            None => Some(record),
            Some(region) => Some(in_region(&record, region)),
        },
        None => None,
    }
}
