//! Faults, told of their places.

ghost use Rattle.std.specs.Prelude.{◌≡◌};
ghost use Rattle.price_sheet.specs.SheetReading.{fault_at, at_place};

use sheet_text::{KeyFault, Place, SheetFault};

/// The fault of a key, told of the place of its table.
pub(crate) fn fault_at(place: Place, fault: KeyFault) -> SheetFault
    ensures { result ≡ fault_at place fault }
{
    match fault {
        KeyFault::Missing(key) => SheetFault::Missing(place, key),
        KeyFault::BadValue(key) => SheetFault::BadValue(place, key),
        KeyFault::OutOfMemory => SheetFault::OutOfMemory,
    }
}

/// What was read of a table, told of its place.
pub(crate) fn at_place<T>(place: Place, read: Result<T, KeyFault>) -> Result<T, SheetFault>
    ensures { result ≡ at_place place read }
{
    match read {
        Ok(value) => Ok(value),
        Err(fault) => Err(fault_at(place, fault)),
    }
}
