//! The rows of regions.

ghost use Rattle.std.specs.Prelude.{◌≡◌, ◌↔◌, IsTrue};
ghost use Rattle.toml.specs.View.{table_view};
ghost use Rattle.sheet_text.specs.RowReading.{region_in};
ghost use Rattle.sheet_text.specs.Gives.{Gives};

use crate::keys::{KeyFault, label_under};
use crate::names::Key;
use std::alloc::Global;
use std::marker::Model;
use toml::Table;

/// The name of a region.
#[derive(Drop)]
pub struct Region {
    id: String,
    name: String,
}

impl Model for Region {
    ghost use Rattle.std.specs.Prelude.{string_bytes};
    ghost use Rattle.metering_model.specs.Sheet as model;

    ghost Value = { model.Region };

    ghost view = { λ x. record {
      id = string_bytes x.id;
      name = string_bytes x.name;
    } };
}

impl Region {
    /// Reads a row of regions. An error is the first key's fault, in the order of the keys, or an allocation failure.
    #[tactic(auto, unfolding(crate::specs::RowReading::region_in))]
    pub fn read(alloc: Global, table: &Table) -> Result<Region, KeyFault>
        ensures { Gives (λ row. row) result (region_in (table_view table.now)) }
    {
        let id = label_under(alloc, table, Key::Id)?;
        let name = label_under(alloc, table, Key::Name)?;
        Ok(Region { id, name })
    }

    /// The id, by which readings name it.
    pub fn id(&self) -> &str
        ensures { result.now ≡ self.now.id }
    {
        self.id.as_str()
    }

    /// What files call it.
    pub fn name(&self) -> &str
        ensures { result.now ≡ self.now.name }
    {
        self.name.as_str()
    }

    /// Whether the two have the same value under each key.
    pub fn same(&self, other: &Region) -> bool
        ensures { IsTrue result ↔ (self.now ≡ other.now) }
    {
        self.id == other.id && self.name == other.name
    }
}
