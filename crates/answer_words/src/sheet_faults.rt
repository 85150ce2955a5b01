//! The words of why a text is no sheet or no issuer.

ghost use Rattle.std.specs.Prelude.{◌≡◌, ◌++◌, OnOk};
ghost use Rattle.sheet_text.specs.Names.{key_name};
ghost use Rattle.answer_words.specs.Words.{issuer_fault_text, key_text, place_text, sheet_fault_text};

use byte_text::put_numbered;
use sheet_text::{IssuerFault, Key, Place, SheetFault};
use std::alloc::AllocError;

/// Appends which table of a sheet, and which of its rows, counted from 1.
fn put_place(text: &mut Vec<u8>, place: Place) -> Result<(), AllocError>
    ensures { OnOk result (text.new.items ≡ text.old.items ++ place_text place) }
{
    match place {
        Place::Top => text.extend_from_slice(b"top"),
        Place::Price(row) => put_numbered(text, b"price ", u128::from(row)),
        Place::Commitment(row) => put_numbered(text, b"commitment ", u128::from(row)),
        Place::Region(row) => put_numbered(text, b"region ", u128::from(row)),
    }
}

/// Appends a code, the place, and the key that was looked at.
fn put_key(text: &mut Vec<u8>, code: &[u8], place: Place, key: Key) -> Result<(), AllocError>
    ensures { OnOk result (text.new.items ≡ text.old.items ++ key_text code.now place key) }
{
    text.extend_from_slice(code)?;
    put_place(text, place)?;
    text.extend_from_slice(b" ")?;
    text.extend_from_slice(key.name().as_bytes())
}

/// Appends a code and the row that it is told of.
fn put_row(text: &mut Vec<u8>, code: &[u8], place: Place) -> Result<(), AllocError>
    ensures { OnOk result (text.new.items ≡ text.old.items ++ (code.now ++ place_text place)) }
{
    text.extend_from_slice(code)?;
    put_place(text, place)
}

/// Appends why a text is no sheet, as `S3 price 2 per`. An error is an allocation failure, and may leave a part of it
/// appended.
pub fn put_sheet_fault(text: &mut Vec<u8>, fault: SheetFault) -> Result<(), AllocError>
    ensures { OnOk result (text.new.items ≡ text.old.items ++ sheet_fault_text fault) }
{
    match fault {
        SheetFault::NotToml => text.extend_from_slice(b"S1"),
        SheetFault::Missing(place, key) => put_key(text, b"S2 ", place, key),
        SheetFault::BadValue(place, key) => put_key(text, b"S3 ", place, key),
        SheetFault::Duplicate(place) => put_row(text, b"S4 ", place),
        SheetFault::UnknownSku(place, key) => put_key(text, b"S5 ", place, key),
        SheetFault::OutOfMemory => text.extend_from_slice(b"S6"),
    }
}

/// Appends a code and the key of an issuer that was looked at.
fn put_issuer_key(text: &mut Vec<u8>, code: &[u8], key: Key) -> Result<(), AllocError>
    ensures { OnOk result (text.new.items ≡ text.old.items ++ (code.now ++ key_name key)) }
{
    text.extend_from_slice(code)?;
    text.extend_from_slice(key.name().as_bytes())
}

/// Appends why a text is no issuer, as `I3 currency`. An error is an allocation failure, and may leave a part of it
/// appended.
pub fn put_issuer_fault(text: &mut Vec<u8>, fault: IssuerFault) -> Result<(), AllocError>
    ensures { OnOk result (text.new.items ≡ text.old.items ++ issuer_fault_text fault) }
{
    match fault {
        IssuerFault::NotToml => text.extend_from_slice(b"I1"),
        IssuerFault::Missing(key) => put_issuer_key(text, b"I2 ", key),
        IssuerFault::BadValue(key) => put_issuer_key(text, b"I3 ", key),
        IssuerFault::OutOfMemory => text.extend_from_slice(b"I4"),
    }
}
