//! Fields of a line, as a reader of CSV takes them back.

ghost use Rattle.std.specs.Prelude.{◌≡◌, ◌<◌, ◌≤◌, ◌∷◌, ◌++◌, None, length, map, take, IfSome, OnOk, OnErr};
ghost use Rattle.std.specs.List.{flat_map};
ghost use Rattle.metering_model.specs.File.{quoted};
ghost use Rattle.focus_csv.specs.Inner.Beginnings.{BeginsWith};
ghost use Rattle.focus_csv.specs.Inner.Runs.{behind};

use crate::odd::OddFields;
use crate::quoting::needs_quotes;
use std::alloc::AllocError;

/// Appends a comma and a field. It is copied, unless it is odd.
fn put_next(odd: &mut OddFields, text: &mut Vec<u8>, field: &[u8]) -> Result<(), AllocError>
    ensures { OnOk result (text.new.items ≡ text.old.items ++ 44 ∷ quoted field.now) }
{
    if needs_quotes(field) {
        return odd.put_next(text, field);
    }
    text.push(b',')?;
    text.extend_from_slice(field)
}

/// So many bytes most pieces have at most: their memory is asked for at once, and not as they grow.
const PIECE_ROOM: usize = 64;

/// Makes a piece that of these fields, each after a comma.
pub(crate) fn make_piece(
    odd: &mut OddFields,
    piece: &mut Vec<u8>,
    fields: &[&[u8]],
) -> Result<(), AllocError>
    ensures { OnOk result (piece.new.items ≡ behind (map (λ f. f.now) fields.now)) }
{
    piece.clear();
    piece.reserve(PIECE_ROOM)?;
    for field in fields {
        put_next(odd, piece, *field)?;
    }
    Ok(())
}

/// So many bytes most lines have at most.
pub(crate) const LINE_BYTES: usize = 512;

/// Copies pieces into a line, one after the other, and returns how many bytes they have; None where one finds no room. So
/// the memory of the text is asked for once for a line, and not for each of its pieces.
fn fill(line: &mut [u8], pieces: &[&[u8]]) -> Option<usize>
    ensures filled { IfSome result (λ count. (count ≤ length line.new)
        × (take count line.new ≡ flat_map (λ t. t) (map (λ p. p.now) pieces.now))) }
    ensures none { result ≡ None
        → length line.new < length (flat_map (λ t. t) (map (λ p. p.now) pieces.now)) }
{
    let mut at = 0;
    for piece in pieces {
        if piece.len() > line.len() - at {
            return None;
        }
        let to = at + piece.len();
        line[at..to].copy_from_slice(*piece);
        at = to;
    }
    Some(at)
}

/// Appends pieces of a long line, one after the other. At an allocation failure the text is as before, or has some of
/// them after it.
fn put_long(text: &mut Vec<u8>, pieces: &[&[u8]]) -> Result<(), AllocError>
    ensures put { OnOk result
        (text.new.items ≡ text.old.items ++ flat_map (λ t. t) (map (λ p. p.now) pieces.now)) }
    ensures begins { OnErr result (BeginsWith text.new.items text.old.items) }
{
    for piece in pieces {
        text.extend_from_slice(*piece)?;
    }
    Ok(())
}

/// Appends pieces, one after the other, which are put together in room for a line. At an allocation failure the text is as
/// before, or has some of them after it.
pub(crate) fn put_pieces(
    line: &mut [u8],
    text: &mut Vec<u8>,
    pieces: &[&[u8]],
) -> Result<(), AllocError>
    ensures put { OnOk result
        (text.new.items ≡ text.old.items ++ flat_map (λ t. t) (map (λ p. p.now) pieces.now)) }
    ensures begins { OnErr result (BeginsWith text.new.items text.old.items) }
{
    match fill(line, pieces) {
        Some(count) => text.extend_from_slice(&line[..count]),
        None => put_long(text, pieces),
    }
}
