//! Tags as the field of a JSON object. What is plain is copied, and an odd string is written by `serde_json` and `csv`.

ghost use Rattle.std.specs.Prelude.{◌≡◌, ◌∷◌, [], ◌++◌, map, false, IfOk, IsTrue, List, ℕ, OnOk};
ghost use Rattle.metering_model.specs.Batch.{is_text};
ghost use Rattle.metering_model.specs.File.{json_member, json_object, json_string};
ghost use Rattle.record_view.specs.Lent.{lent_tags};
ghost use Rattle.record_view.specs.TagTexts.{tag_of};
ghost use Rattle.focus_csv.specs.Inner.Runs.{behind};
ghost use Rattle.focus_csv.specs.Inner.Strings.{is_odd, doubled};

use crate::odd::OddFields;
use memchr::memchr2;
use record_view::Tags;
use serde_json::Value;
use std::alloc::{AllocError, Global};
use std::str;

/// Whether a text has a byte before which JSON puts a backslash. (No tag has a control character.)
fn is_odd(text: &[u8]) -> bool
    ensures { result ≡ is_odd text.now }
{
    memchr2(b'"', b'\\', text).is_some()
}

// ---- a tag, within the quotation marks of its field

/// Appends a plain tag. What comes before it ends with the quotation mark of its key, which stands twice.
fn put_plain_tag(
    piece: &mut Vec<u8>,
    begin: &[u8],
    key: &[u8],
    value: &[u8],
) -> Result<(), AllocError>
    requires key { is_odd key.now ≡ false }
    requires value { is_odd value.now ≡ false }
    ensures { OnOk result ((front : List ℕ) → begin.now ≡ front ++ 34 ∷ 34 ∷ []
        → piece.new.items ≡ piece.old.items
        ++ (front ++ doubled (json_member (record { key = key.now; value = value.now })))) }
{
    let Ok(()) = piece.extend_from_slice(begin) else {
        return Err(AllocError);
    };
    let Ok(()) = piece.extend_from_slice(key) else {
        return Err(AllocError);
    };
    let Ok(()) = piece.extend_from_slice(b"\"\":\"\"") else {
        return Err(AllocError);
    };
    let Ok(()) = piece.extend_from_slice(value) else {
        return Err(AllocError);
    };
    piece.extend_from_slice(b"\"\"")
}

/// A text as a string, as `serde_json` writes it.
fn json_of(alloc: Global, text: &[u8]) -> Result<Vec<u8>, AllocError>
    requires { IsTrue (is_text text.now) }
    ensures { IfOk result (λ v. v.items ≡ json_string text.now) }
{
    let Ok(text) = str::from_utf8(text) else {
        unreachable!()
    };
    let string = Value::try_from_str(alloc, text)?;
    string.to_vec(alloc)
}

/// Appends a text as a string, each quotation mark twice.
fn put_string(odd: &mut OddFields, piece: &mut Vec<u8>, text: &[u8]) -> Result<(), AllocError>
    requires { IsTrue (is_text text.now) }
    ensures { OnOk result (piece.new.items ≡ piece.old.items ++ doubled (json_string text.now)) }
{
    if is_odd(text) {
        let json = json_of(odd.alloc(), text)?;
        return odd.put_within(piece, json.as_slice());
    }
    piece.extend_from_slice(b"\"\"")?;
    piece.extend_from_slice(text)?;
    piece.extend_from_slice(b"\"\"")?;
    Ok(())
}

/// Appends a front and a tag, of which either string may be odd.
fn put_odd_tag(
    odd: &mut OddFields,
    piece: &mut Vec<u8>,
    front: &[u8],
    key: &[u8],
    value: &[u8],
) -> Result<(), AllocError>
    requires key { IsTrue (is_text key.now) }
    requires value { IsTrue (is_text value.now) }
    ensures { OnOk result (piece.new.items
        ≡ piece.old.items ++ (front.now
        ++ doubled (json_member (record { key = key.now; value = value.now })))) }
{
    piece.extend_from_slice(front)?;
    put_string(odd, piece, key)?;
    piece.push(b':')?;
    put_string(odd, piece, value)?;
    Ok(())
}

/// Appends a front and a tag; `begin` is the front and two quotation marks.
fn put_tag(
    odd: &mut OddFields,
    piece: &mut Vec<u8>,
    is_plain: bool,
    front: &[u8],
    begin: &[u8],
    key: &[u8],
    value: &[u8],
) -> Result<(), AllocError>
    requires begin { begin.now ≡ front.now ++ 34 ∷ 34 ∷ [] }
    requires key { IsTrue (is_text key.now) }
    requires value { IsTrue (is_text value.now) }
    requires plain { IsTrue is_plain → (is_odd key.now ≡ false) × (is_odd value.now ≡ false) }
    ensures { OnOk result (piece.new.items
        ≡ piece.old.items ++ (front.now
        ++ doubled (json_member (record { key = key.now; value = value.now })))) }
{
    if is_plain {
        put_plain_tag(piece, begin, key, value)?;
        return Ok(());
    }
    put_odd_tag(odd, piece, front, key, value)
}

// ---- all tags

/// Makes a piece that of tags: one JSON object without blanks, by rising keys. Where their text has no odd byte, none
/// is asked for in a tag.
pub(crate) fn set_tags(
    odd: &mut OddFields,
    piece: &mut Vec<u8>,
    tags: Tags<'_>,
) -> Result<(), AllocError>
    ensures { OnOk result (piece.new.items
        ≡ behind (json_object (map tag_of (lent_tags tags.entry)) ∷ [])) }
{
    piece.clear();
    let is_plain = !is_odd(tags.text());
    let mut left = tags;
    let Some((key, value)) = left.next() else {
        piece.extend_from_slice(b",{}")?;
        return Ok(());
    };
    put_tag(
        odd,
        piece,
        is_plain,
        b",\"{",
        b",\"{\"\"",
        key.text,
        value.text,
    )?;
    for (key, value) in left {
        put_tag(odd, piece, is_plain, b",", b",\"\"", key.text, value.text)?;
    }
    piece.extend_from_slice(b"}\"")?;
    Ok(())
}
