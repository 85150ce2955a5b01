//! What all processes of a group have in common.

ghost use Rattle.std.specs.Prelude.{◌≡◌, ◌+◌, ◌≤◌, length};
ghost use Rattle.std.specs.Arc.{arc_value};
ghost use Rattle.metering_model.specs.BatchReading.{is_same};
ghost use Rattle.metering_model.specs.Limits.{most_agents, most_nodes};
ghost use Rattle.group_process.specs.Selves.{IsGroup};

use byte_text::{Line, is_same};
use group_events::Sheet;
use sheet_text::Issuer;
use std::marker::Model;
use std::sync::Arc;

/// A group: its name, how many nodes vote, at least 1, and observe, at most 99 with the voters, 1 to 64 agents, the sheet and
/// the issuer. All processes of a group have to be begun with the same.
#[derive(Drop)]
pub struct Group {
    name: Line,
    pub(crate) voters: u8,
    pub(crate) observers: u8,
    pub(crate) agents: u8,
    sheet: Arc<Sheet>,
    issuer: Arc<Issuer>,
}

impl Model for Group {
    ghost use Rattle.std.specs.Arc.{arc_value};
    ghost use Rattle.process_laws.specs.LocalSteps as model;
    ghost use Rattle.group_process.specs.Selves.{IsGroup};

    ghost Value = { model.Group };

    ghost view = { λ g. record {
      name = g.name;
      voters = g.voters;
      observers = g.observers;
      agents = g.agents;
      sheet = arc_value g.sheet;
      issuer = arc_value g.issuer;
    } };

    ghost invariant = { λ g. IsGroup (record {
      name = g.name;
      voters = g.voters;
      observers = g.observers;
      agents = g.agents;
      sheet = arc_value g.sheet;
      issuer = arc_value g.issuer;
    }) };
}

impl Group {
    /// A group of these parts. The name has at most 64 bytes; which names may be given in texts `packet_text` tells.
    pub fn new(
        name: &[u8],
        voters: u8,
        observers: u8,
        agents: u8,
        sheet: Arc<Sheet>,
        issuer: Arc<Issuer>,
    ) -> Group
        requires name { length name.now ≤ 64 }
        requires voters { 1 ≤ voters }
        requires nodes { voters + observers ≤ most_nodes }
        requires agents { (1 ≤ agents) × (agents ≤ most_agents) }
        ensures { result ≡ record {
          name = name.now;
          voters = voters;
          observers = observers;
          agents = agents;
          sheet = arc_value sheet;
          issuer = arc_value issuer;
        } }
    {
        let mut kept = Line::new();
        kept.put(name);
        Group {
            name: kept,
            voters,
            observers,
            agents,
            sheet,
            issuer,
        }
    }

    /// The group's name.
    pub fn name(&self) -> &[u8]
        ensures { result.now ≡ self.now.name }
    {
        self.name.as_slice()
    }

    /// How many nodes vote, how many observe, and how many agents there are, each within its limits.
    pub fn sizes(&self) -> (u8, u8, u8)
        ensures voters { result.0 ≡ self.now.voters }
        ensures observers { result.1 ≡ self.now.observers }
        ensures agents { result.2 ≡ self.now.agents }
        ensures within { IsGroup self.now }
    {
        (self.voters, self.observers, self.agents)
    }

    /// The sheet by which its periods are charged.
    pub(crate) fn sheet(&self) -> &Arc<Sheet>
        ensures { arc_value result.now ≡ self.now.sheet }
    {
        &self.sheet
    }

    /// The issuer that its files name.
    pub(crate) fn issuer(&self) -> &Arc<Issuer>
        ensures { arc_value result.now ≡ self.now.issuer }
    {
        &self.issuer
    }

    /// Whether that is the group's name.
    pub(crate) fn is_named(&self, name: &[u8]) -> bool
        ensures { result ≡ is_same name.now self.now.name }
    {
        is_same(name, self.name())
    }
}
