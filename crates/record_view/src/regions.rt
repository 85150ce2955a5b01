//! The region at the end of a record's line.

ghost use Rattle.std.specs.Prelude.{◌≡◌, ◌∷◌, [], IsTrue, IfOk, IfErr, IfSome, IfNone, Ok, Err, false, ℕ, List, codes};
ghost use Rattle.metering_model.specs.Batch.{is_text};
ghost use Rattle.metering_model.specs.declared.Version.TheVariants.{B1, B2};
ghost use Rattle.metering_model.specs.BatchReading.{is_same, record_in};
ghost use Rattle.record_view.specs.Parts.{LentText, AreLentApart, lent, parts_at};
ghost use Rattle.record_view.specs.Inner.Placed.{IsPlaced, texts_of};
ghost use Rattle.record_view.specs.Plain.{is_plain_line};
ghost use Rattle.record_view.specs.Lent.{record_of, record_texts, lent_fields};
ghost use Rattle.record_view.specs.Inner.LineFields.{first_fault, in_region, IsBeforeRegion};

use crate::exact::exact_reading;
use crate::fields::{Field, split_at_last};
use crate::plain_records::plain_record;
use crate::records::{Reading, Record};
use crate::stamps::StampReader;
use crate::texts::is_text;
use metering_model::{BatchCode, Version};

/// The record with that region, where it is a reading.
#[inline(always)]
pub(crate) fn in_region<'a>(what: &Record<'a>, region: Field<'a>) -> Record<'a>
    ensures { result ≡ in_region region.entry what.now }
{
    match what {
        Record::Reading(reading) => Record::Reading(Reading {
            region: Some(region),
            ..*reading
        }),
        Record::Amend { seq, index, value } => Record::Amend {
            seq: *seq,
            index: *index,
            value: *value,
        },
    }
}

/// What stands of a line after its letter and before its region, which is all of it in format B1, and the region of
/// format B2. Nothing where a line of format B2 has no bar, or a region that is no text: that is asked first.
#[inline(always)]
pub(crate) fn before_region<'a>(
    version: Version,
    rest: Field<'a>,
) -> Option<(Field<'a>, Option<Field<'a>>)>
    requires { IsPlaced (lent rest) }
    ensures before { IfSome result (λ p. IsBeforeRegion version (lent rest.entry) (lent p.0) p.1) }
    ensures placed { IfSome result (λ p. IsPlaced (lent p.0)) }
    ensures text { IfSome result (λ p. IfSome p.1 (λ region. IsTrue (is_text region.text.now))) }
    ensures none { IfNone result (IsTrue (is_plain_line rest.entry.text.now)
        → (version ≡ B2) × (parts_at 124 (lent rest.entry) ≡ lent rest.entry ∷ [])) }
    ensures plain { IfSome result
        (λ p. IsTrue (is_plain_line rest.entry.text.now) → IsTrue (is_plain_line p.0.text.now)) }
{
    match version {
        Version::B1 => Some((rest, None)),
        Version::B2 => {
            let (front, region) = split_at_last(rest, b'|')?;
            if is_text(region.text) {
                Some((front, Some(region)))
            } else {
                None
            }
        }
    }
}

/// The rule that a reading's line breaks whose region breaks this one, from what stands before the region. A plain
/// reading is known for one in one pass: then the region's fault is the first.
#[inline(never)]
fn fault_before(letter: &[u8], front: Field<'_>, region: BatchCode) -> BatchCode
    requires placed { IsPlaced (lent front) }
    requires letter { is_same letter.now (codes "X") ≡ false }
    ensures { result ≡ first_fault
        (record_in B1 (letter.now ∷ texts_of (parts_at 124 (lent front.entry)))) region }
{
    match plain_record(letter, front, &mut StampReader::new()) {
        Some(_) => region,
        None => match exact_reading(letter, front) {
            Ok(_) => region,
            Err(code) => code,
        },
    }
}

/// The record of a reading's line in format B2, from what stands after its letter: what stands before the last bar is
/// read as in format B1, and after it stands the region.
#[inline(never)]
pub(crate) fn reading_in_region<'a>(letter: &[u8], rest: Field<'a>) -> Result<Record<'a>, BatchCode>
    requires placed { IsPlaced (lent rest) }
    requires letter { is_same letter.now (codes "X") ≡ false }
    ensures ok { IfOk result (λ r.
        record_in B2 (letter.now ∷ texts_of (parts_at 124 (lent rest.entry))) ≡ Ok (record_of r)) }
    ensures err { IfErr result (λ e.
        record_in B2 (letter.now ∷ texts_of (parts_at 124 (lent rest.entry))) ≡ Err e) }
    ensures places { IfOk result (λ r. (letter : LentText) →
        record_texts r ≡ lent_fields (letter ∷ parts_at 124 (lent rest.entry))) }
    // What it lends is lent by the parts.
    ensures lent { IfOk result (λ r. (source : List ℕ) (from to : ℕ) →
        AreLentApart source from to (parts_at 124 (lent rest.entry))
        → AreLentApart source from to (record_texts r)) }
{
    let Some((front, region)) = split_at_last(rest, b'|') else {
        return Err(BatchCode::Fields);
    };
    if !is_text(region.text) {
        return Err(fault_before(letter, front, BatchCode::Text));
    }
    match exact_reading(letter, front) {
        Ok(record) => Ok(in_region(&record, region)),
        Err(code) => Err(code),
    }
}
