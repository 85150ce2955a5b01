//! The columns of a commitment.

ghost use Rattle.std.specs.Prelude.{◌≡◌, None, Some, if◌then◌else◌, codes, option_map};
ghost use Rattle.std.specs.Option.{is_some, option_copied};
ghost use Rattle.metering_model.specs.Sheet.{commitment_category_text};
ghost use Rattle.metering_model.specs.Row.{by_kind};

use crate::words::commitment_category_text;
use metering_model::Kind;
use sheet_text::Commitment;

/// The columns that the commitment gives.
#[derive(Clone, Copy)]
pub(crate) struct CommitmentColumns<'a> {
    pub(crate) category: Option<&'a [u8]>,
    pub(crate) id: Option<&'a [u8]>,
    pub(crate) kind: Option<&'a [u8]>,
}

pub(crate) fn commitment_columns<'a>(commitment: Option<&'a Commitment>) -> CommitmentColumns<'a>
    ensures category { option_copied result.category
        ≡ option_map (λ c. commitment_category_text c.category) (option_copied commitment.entry) }
    ensures id { option_copied result.id ≡ option_map (λ c. c.id) (option_copied commitment.entry) }
    ensures kind { option_copied result.kind
        ≡ option_map (λ c. c.kind) (option_copied commitment.entry) }
{
    match commitment {
        Some(commitment) => CommitmentColumns {
            category: Some(commitment_category_text(commitment.category())),
            id: Some(commitment.id().as_bytes()),
            kind: Some(commitment.kind().as_bytes()),
        },
        None => CommitmentColumns {
            category: None,
            id: None,
            kind: None,
        },
    }
}

/// CommitmentDiscountStatus: usage uses a commitment, and a purchase buys it.
pub(crate) fn commitment_status<'a>(kind: Kind, commitment: Option<&Commitment>) -> Option<&'a [u8]>
    ensures { option_copied result
        ≡ by_kind kind (option_map (λ c. codes "Used") (option_copied commitment.entry)) None None }
{
    match kind {
        Kind::Usage => match commitment {
            Some(_) => Some(b"Used"),
            None => None,
        },
        Kind::Purchase | Kind::Credit | Kind::Tax | Kind::Adjustment => None,
    }
}

/// PricingCategory.
pub(crate) fn pricing_category<'a>(kind: Kind, commitment: Option<&Commitment>) -> Option<&'a [u8]>
    ensures { option_copied result ≡ by_kind kind
        (if is_some (option_copied commitment.entry) then Some (codes "Committed") else Some
        (codes "Standard"))
        (Some (codes "Standard")) None }
{
    match kind {
        Kind::Usage => match commitment {
            Some(_) => Some(b"Committed"),
            None => Some(b"Standard"),
        },
        Kind::Purchase => Some(b"Standard"),
        Kind::Credit | Kind::Tax | Kind::Adjustment => None,
    }
}
