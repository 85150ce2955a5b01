//! The lines of the fields in which two rows differ.

ghost use Rattle.std.specs.Prelude.{◌≡◌, ◌++◌, ◌∷◌, [], ℕ, List, map, IfOk, OnOk, string_bytes};
ghost use Rattle.std.specs.List.{flat_map};
ghost use Rattle.std.specs.Option.{option_copied};
ghost use Rattle.metering_model.specs.Sheet.{commitment_category_text, service_category_text};
ghost use Rattle.sheet_text.specs.Names.{key_name};
ghost use Rattle.sheet_changes.specs.FieldChanges.{changed, changed_keys, commitment_text, part, price_text};

use byte_text::{is_same, put_number};
use metering_model::{CommitmentCategory, ServiceCategory};
use sheet_text::{Commitment, Key, PriceRow};
use std::alloc::{AllocError, Global};

/// A row with keys.
pub(crate) trait Keyed {
    ghost use Rattle.std.specs.Prelude.{ℕ, List};
    ghost use Rattle.sheet_text.specs.declared.names.Key.{Key};

    ghost said: { Key → Self → List ℕ };

    /// Appends what a sheet says under a key of the row.
    fn put_under(&self, alloc: Global, key: Key, text: &mut Vec<u8>) -> Result<(), AllocError>
        ensures { OnOk result (text.new.items ≡ text.old.items ++ said key self.now) };
}

/// Appends a text, if there was memory for it.
fn put_spelled(text: &mut Vec<u8>, spelled: Result<String, AllocError>) -> Result<(), AllocError>
    ensures { (bytes : List ℕ) → IfOk spelled (λ s. string_bytes s ≡ bytes)
        → OnOk result (text.new.items ≡ text.old.items ++ bytes) }
{
    match spelled {
        Ok(spelled) => text.extend_from_slice(spelled.as_bytes()),
        Err(error) => Err(error),
    }
}

impl Keyed for PriceRow {
    ghost said = { price_text };

    fn put_under(&self, alloc: Global, key: Key, text: &mut Vec<u8>) -> Result<(), AllocError> {
        match key {
            Key::PriceId => text.extend_from_slice(self.price_id().as_bytes()),
            Key::Description => text.extend_from_slice(self.description().as_bytes()),
            Key::Service => text.extend_from_slice(self.service().as_bytes()),
            Key::Category => text.extend_from_slice(service_category_text(self.category())),
            Key::ConsumedUnit => text.extend_from_slice(self.consumed_unit().as_bytes()),
            Key::PricingUnit => text.extend_from_slice(self.pricing_unit().as_bytes()),
            Key::Per => put_number(text, u128::from(self.per())),
            Key::List => put_spelled(text, self.list().write(alloc)),
            Key::Contracted => put_spelled(text, self.contracted().write(alloc)),
            _ => Ok(()),
        }
    }
}

impl Keyed for Commitment {
    ghost said = { commitment_text };

    fn put_under(&self, alloc: Global, key: Key, text: &mut Vec<u8>) -> Result<(), AllocError> {
        match key {
            Key::Sku => text.extend_from_slice(self.sku().as_bytes()),
            Key::Buy => text.extend_from_slice(self.buy().as_bytes()),
            Key::Category => text.extend_from_slice(commitment_category_text(self.category())),
            Key::Kind => text.extend_from_slice(self.kind().as_bytes()),
            Key::Rate => put_spelled(text, self.rate().write(alloc)),
            _ => Ok(()),
        }
    }
}

fn service_category_text<'a>(category: ServiceCategory) -> &'a [u8]
    ensures { result.now ≡ service_category_text category }
{
    match category {
        ServiceCategory::Compute => b"Compute",
        ServiceCategory::Storage => b"Storage",
        ServiceCategory::Networking => b"Networking",
        ServiceCategory::Databases => b"Databases",
        ServiceCategory::Other => b"Other",
    }
}

fn commitment_category_text<'a>(category: CommitmentCategory) -> &'a [u8]
    ensures { result.now ≡ commitment_category_text category }
{
    match category {
        CommitmentCategory::Spend => b"Spend",
        CommitmentCategory::Usage => b"Usage",
    }
}

/// Appends texts, each with a tab behind it.
fn put_named(text: &mut Vec<u8>, named: &[&[u8]]) -> Result<(), AllocError>
    ensures { OnOk result (text.new.items
        ≡ text.old.items ++ flat_map (λ part. part.now ++ 9 ∷ []) named.now) }
{
    for part in named {
        let Ok(()) = text.extend_from_slice(part) else {
            return Err(AllocError);
        };
        let Ok(()) = text.extend_from_slice(b"\t") else {
            return Err(AllocError);
        };
    }
    Ok(())
}

/// Appends a line of what two sides say, if they differ, behind what names it.
pub(crate) fn put_changed(
    text: &mut Vec<u8>,
    named: &[&[u8]],
    key: &[u8],
    old: &[u8],
    new: &[u8],
) -> Result<(), AllocError>
    ensures { OnOk result (text.new.items
        ≡ text.old.items ++ changed
        (map (λ part. part.now) named.now ++ key.now ∷ []) old.now new.now) }
{
    if is_same(old, new) {
        return Ok(());
    }
    let Ok(()) = put_named(text, named) else {
        return Err(AllocError);
    };
    let Ok(()) = put_named(text, &[key, old]) else {
        return Err(AllocError);
    };
    let Ok(()) = text.extend_from_slice(new) else {
        return Err(AllocError);
    };
    text.extend_from_slice(b"\n")
}

/// What is said of a side under a key; nothing where there is none.
fn said_of<R: Keyed>(alloc: Global, row: Option<&R>, key: Key) -> Result<Vec<u8>, AllocError>
    ensures { IfOk result (λ text. text.items ≡ part (R.said key) (option_copied row.entry)) }
{
    let mut text = Vec::new(alloc);
    if let Some(row) = row {
        let Ok(()) = row.put_under(alloc, key, &mut text) else {
            return Err(AllocError);
        };
    }
    Ok(text)
}

/// Appends the line of a key.
fn put_key<R: Keyed>(
    alloc: Global,
    text: &mut Vec<u8>,
    named: &[&[u8]],
    key: Key,
    old: Option<&R>,
    new: Option<&R>,
) -> Result<(), AllocError>
    ensures { OnOk result (text.new.items
        ≡ text.old.items ++ changed (map (λ part. part.now) named.now ++ key_name key ∷ [])
        (part (R.said key) (option_copied old.entry))
        (part (R.said key) (option_copied new.entry))) }
{
    let Ok(before) = said_of(alloc, old, key) else {
        return Err(AllocError);
    };
    let Ok(after) = said_of(alloc, new, key) else {
        return Err(AllocError);
    };
    put_changed(text, named, key.name().as_bytes(), &before, &after)
}

/// Appends a line for each of these keys under which two rows differ.
pub(crate) fn put_keys<R: Keyed>(
    alloc: Global,
    text: &mut Vec<u8>,
    named: &[&[u8]],
    keys: &[Key],
    old: Option<&R>,
    new: Option<&R>,
) -> Result<(), AllocError>
    ensures { OnOk result (text.new.items
        ≡ text.old.items ++ changed_keys R.said (map (λ part. part.now) named.now) keys.now
        (option_copied old.entry) (option_copied new.entry)) }
{
    for key in keys {
        let Ok(()) = put_key(alloc, text, named, *key, old, new) else {
            return Err(AllocError);
        };
    }
    Ok(())
}
