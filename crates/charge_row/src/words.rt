//! The words of the standard that stand in a row.

ghost use Rattle.std.specs.Prelude.{◌≡◌, codes};
ghost use Rattle.std.specs.Option.{option_copied};
ghost use Rattle.metering_model.specs.Sheet.{service_category_text, commitment_category_text};
ghost use Rattle.metering_model.specs.Row.{or_null, by_kind, category_text, class_text};

use metering_model::{ChargeClass, CommitmentCategory, Kind, ServiceCategory};

/// FOCUS's ChargeClass.
pub(crate) fn class_text<'a>(class: ChargeClass) -> Option<&'a [u8]>
    ensures { option_copied result ≡ class_text class }
{
    match class {
        ChargeClass::New => None,
        ChargeClass::Correction => Some(b"Correction"),
    }
}

/// FOCUS's ChargeCategory.
pub(crate) fn category_text<'a>(kind: Kind) -> &'a [u8]
    ensures { result.now ≡ category_text kind }
{
    match kind {
        Kind::Usage => b"Usage",
        Kind::Purchase => b"Purchase",
        Kind::Credit => b"Credit",
        Kind::Tax => b"Tax",
        Kind::Adjustment => b"Adjustment",
    }
}

/// FOCUS's ChargeFrequency.
pub(crate) fn frequency_text<'a>(kind: Kind) -> &'a [u8]
    ensures { result.now ≡ by_kind kind (codes "Usage-Based") (codes "One-Time")
        (codes "One-Time") }
{
    match kind {
        Kind::Usage => b"Usage-Based",
        Kind::Purchase | Kind::Credit | Kind::Tax | Kind::Adjustment => b"One-Time",
    }
}

/// FOCUS's ServiceCategory.
pub(crate) fn service_category_text<'a>(category: ServiceCategory) -> &'a [u8]
    ensures { result.now ≡ service_category_text category }
{
    match category {
        ServiceCategory::Compute => b"Compute",
        ServiceCategory::Storage => b"Storage",
        ServiceCategory::Networking => b"Networking",
        ServiceCategory::Databases => b"Databases",
        ServiceCategory::Other => b"Other",
    }
}

/// FOCUS's CommitmentDiscountCategory.
pub(crate) fn commitment_category_text<'a>(category: CommitmentCategory) -> &'a [u8]
    ensures { result.now ≡ commitment_category_text category }
{
    match category {
        CommitmentCategory::Spend => b"Spend",
        CommitmentCategory::Usage => b"Usage",
    }
}

/// The text, or null where it is empty.
pub(crate) fn or_null(text: &[u8]) -> Option<&[u8]>
    ensures { option_copied result ≡ or_null text.now }
{
    if text.is_empty() { None } else { Some(text) }
}
