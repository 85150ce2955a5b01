//! Which readings later amendments name.

ghost use Rattle.std.specs.Prelude.{◌≡◌, ◌≤◌, ◌++◌, length, map, IfOk};
ghost use Rattle.std.specs.List.{filter_map};
ghost use Rattle.metering_model.specs.Cut.{IsAtLeast};
ghost use Rattle.metering_model.specs.Limits.{last_sequence};
ghost use Rattle.batch_store.specs.Stores.{AreAmended, position_of};
ghost use Rattle.batch_store.specs.Inner.Amended.{Adds, IsNamedOf, named_place};

use crate::{RecordPlace, Store};
use batch_view::Amendment;
use period_cut::Cut;
use std::alloc::{AllocError, Global};

/// Adds the places up to a sequence that these amendments of an agent name.
fn add_named(
    places: &mut Vec<RecordPlace>,
    agent: u8,
    amendments: &[Amendment],
    upto: u32,
) -> Result<(), AllocError>
    ensures { IfOk result (λ _. places.new.items
        ≡ places.old.items ++ filter_map (named_place agent upto) amendments.now) }
{
    for amendment in amendments {
        if amendment.seq <= upto {
            places.push(RecordPlace {
                agent,
                seq: amendment.seq,
                index: amendment.index,
            })?;
        }
    }
    Ok(())
}

impl Store {
    /// The places up to the cut `from` that amendments above it and up to the cut `to` name, each once, rising. An
    /// error is an allocation failure.
    pub fn amended(
        &self,
        alloc: Global,
        from: &Cut,
        to: &Cut,
    ) -> Result<Vec<RecordPlace>, AllocError>
        requires agents { length to.now ≡ self.now.agents }
        requires grows { IsAtLeast to.now from.now }
        ensures { IfOk result (λ places.
            AreAmended self.now.batches from.now to.now (map position_of places.items)) }
    {
        let mut places = Vec::new(alloc);
        for agent in 1..self.agents() + 1 {
            self.add_amended(&mut places, agent, from.get(agent), to.get(agent))?;
        }
        places.sort_unstable();
        places.dedup();
        Ok(places)
    }

    /// Adds the places up to the sequence `from` that the agent's amendments above it and up to `to` name.
    fn add_amended(
        &self,
        places: &mut Vec<RecordPlace>,
        agent: u8,
        from: u32,
        to: u32,
    ) -> Result<(), AllocError>
        requires agent_from { 1 ≤ agent }
        requires agent_to { agent ≤ self.now.agents }
        requires grows { from ≤ to }
        requires to { to ≤ last_sequence }
        ensures { IfOk result (λ _.
            Adds (IsNamedOf self.now.batches agent from to) places.old.items places.new.items) }
    {
        for seq in from..to {
            if let Some(batch) = self.get(agent, seq + 1) {
                add_named(places, agent, batch.amendments(), from)?;
            }
        }
        Ok(())
    }
}
