//! The rule of each field of a record.

ghost use Rattle.std.specs.Prelude.{◌≡◌, ◌≤◌, map, IsTrue, OnOk, IfOk, IfErr, MatchResult, Ok, Err, ℤ};
ghost use Rattle.metering_model.specs.FirstFailure.{holds_or};
ghost use Rattle.metering_model.specs.Batch.{is_priced, is_text};
ghost use Rattle.metering_model.specs.BatchReading.{kind_in};
ghost use Rattle.record_view.specs.Parts.{lent};
ghost use Rattle.record_view.specs.Inner.Placed.{IsPlaced};
ghost use Rattle.record_view.specs.TagTexts.{tag_of, tags_at};
ghost use Rattle.record_view.specs.Inner.TagParts.{are_tags};
ghost use Rattle.record_view.specs.Inner.RecordSteps.{kind_step, stamp_step, order_step, text_step, key_step, value_step, sign_step, commitment_step, tags_step, whole_step};
ghost use Rattle.record_view.specs.Lent.{lent_tags};

use crate::fields::Field;
use crate::stamps::StampReader;
use crate::tags::Tags;
use crate::texts::is_text;
use byte_text::read_whole;
use fx_money::Value;
use metering_model::{BatchCode, Kind};
use utc_calendar::Stamp;

fn holds_or(test: bool, code: BatchCode) -> Result<(), BatchCode>
    ensures { result ≡ holds_or test code }
{
    if test { Ok(()) } else { Err(code) }
}

fn kind_of(letter: &[u8]) -> Option<Kind>
    ensures { result ≡ kind_in letter.now }
{
    match letter {
        [b'U'] => Some(Kind::Usage),
        [b'P'] => Some(Kind::Purchase),
        [b'C'] => Some(Kind::Credit),
        [b'T'] => Some(Kind::Tax),
        [b'A'] => Some(Kind::Adjustment),
        _ => None,
    }
}

/// Whether a price charges readings of this kind.
fn is_priced(kind: Kind) -> bool
    ensures { result ≡ is_priced kind }
{
    match kind {
        Kind::Usage | Kind::Purchase => true,
        Kind::Credit | Kind::Tax | Kind::Adjustment => false,
    }
}

#[tactic(auto, unfolding(crate::specs::Inner::RecordSteps::kind_step))]
pub(crate) fn read_kind(letter: &[u8]) -> Result<Kind, BatchCode>
    ensures { result ≡ kind_step letter.now }
{
    kind_of(letter).ok_or(BatchCode::Fields)
}

#[tactic(auto, unfolding(crate::specs::Inner::RecordSteps::stamp_step))]
pub(crate) fn read_stamp(text: &[u8]) -> Result<Stamp, BatchCode>
    ensures { result ≡ stamp_step text.now }
{
    Stamp::read(text).ok_or(BatchCode::Time)
}

/// Both stamps of a reading. At an error one of the texts is no stamp.
#[inline(always)]
pub(crate) fn read_stamps<'a>(
    start: &'a [u8],
    end: &'a [u8],
    stamps: &mut StampReader<'a>,
) -> Result<(Stamp, Stamp), BatchCode>
    ensures ok { IfOk result
        (λ stamps. (stamp_step start.now ≡ Ok stamps.0) × (stamp_step end.now ≡ Ok stamps.1)) }
    ensures err { IfErr result
        (λ e. (s t : ℤ) → stamp_step start.now ≡ Ok s → stamp_step end.now ≡ Ok t → ⊥) }
{
    match stamps.read_both(start, end) {
        Some(stamps) => Ok(stamps),
        None => Err(BatchCode::Time),
    }
}

#[tactic(auto, unfolding(crate::specs::Inner::RecordSteps::order_step))]
pub(crate) fn check_order(start: Stamp, end: Stamp) -> Result<(), BatchCode>
    ensures { result ≡ order_step start end }
{
    holds_or(start < end, BatchCode::Time)
}

#[tactic(auto, unfolding(crate::specs::Inner::RecordSteps::text_step))]
pub(crate) fn check_text(text: &[u8]) -> Result<(), BatchCode>
    ensures { result ≡ text_step text.now }
{
    holds_or(is_text(text), BatchCode::Text)
}

#[tactic(auto, unfolding(crate::specs::Inner::RecordSteps::key_step))]
pub(crate) fn check_key(text: &[u8]) -> Result<(), BatchCode>
    ensures { result ≡ key_step text.now }
{
    holds_or(is_text(text) && !text.is_empty(), BatchCode::Text)
}

#[tactic(auto, unfolding(crate::specs::Inner::RecordSteps::value_step))]
pub(crate) fn read_number(text: &[u8]) -> Result<Value, BatchCode>
    ensures { result ≡ value_step text.now }
{
    Value::read(text).ok().ok_or(BatchCode::Number)
}

#[tactic(auto, unfolding(crate::specs::Inner::RecordSteps::sign_step))]
pub(crate) fn check_sign(kind: Kind, value: Value) -> Result<(), BatchCode>
    ensures { result ≡ sign_step kind value }
{
    holds_or(
        !is_priced(kind) || value.millionths() >= 0,
        BatchCode::Number,
    )
}

#[tactic(auto, unfolding(crate::specs::Inner::RecordSteps::commitment_step))]
pub(crate) fn check_commitment(kind: Kind, text: &[u8]) -> Result<(), BatchCode>
    ensures { result ≡ commitment_step kind text.now }
{
    holds_or(
        is_text(text) && (is_priced(kind) || text.is_empty()),
        BatchCode::Text,
    )
}

#[tactic(auto, unfolding(crate::specs::Inner::RecordSteps::tags_step))]
pub(crate) fn read_tags<'a>(text: Field<'a>) -> Result<Tags<'a>, BatchCode>
    requires { IsPlaced (lent text) }
    ensures read { MatchResult result
        (λ t. tags_step text.entry.text.now ≡ Ok (map tag_of (lent_tags t)))
        (λ e. tags_step text.entry.text.now ≡ Err e) }
    ensures tags { OnOk result (IsTrue (are_tags text.entry.text.now)) }
    ensures lent { IfOk result (λ t. lent_tags t ≡ tags_at (lent text.entry)) }
{
    Tags::read(text).ok_or(BatchCode::Tags)
}

#[tactic(auto, unfolding(crate::specs::Inner::RecordSteps::whole_step))]
pub(crate) fn read_count(text: &[u8], low: u32, high: u32) -> Result<u32, BatchCode>
    requires { high ≤ 1_000_000 }
    ensures value { result ≡ whole_step low high text.now }
    ensures within { IfOk result (λ n. n ≤ high) }
{
    read_whole(text, low, high).ok_or(BatchCode::Number)
}

#[tactic(auto, unfolding(crate::specs::Inner::RecordSteps::key_step))]
pub(crate) fn check_plain_key(text: &[u8]) -> Result<(), BatchCode>
    requires { IsTrue (is_text text.now) }
    ensures { result ≡ key_step text.now }
{
    holds_or(!text.is_empty(), BatchCode::Text)
}

#[tactic(auto, unfolding(crate::specs::Inner::RecordSteps::commitment_step))]
pub(crate) fn check_plain_commitment(kind: Kind, text: &[u8]) -> Result<(), BatchCode>
    requires { IsTrue (is_text text.now) }
    ensures { result ≡ commitment_step kind text.now }
{
    holds_or(is_priced(kind) || text.is_empty(), BatchCode::Text)
}
