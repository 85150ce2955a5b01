//! The head of a log: of which group it is, and whose.

ghost use Rattle.std.specs.Prelude.{◌≡◌, ◌↔◌, IsTrue};
ghost use Rattle.packet_text.specs.PacketText.{is_group};
ghost use Rattle.log_text.specs.Heads.{who_of};

use byte_text::Line;
use std::marker::Model;

/// Whose a log is.
#[derive(Clone, Copy, Drop)]
pub enum Who {
    /// The node of that number, from 0.
    Node(u8),
    /// The agent of that number, from 1.
    Agent(u8),
}

/// The name of a group, whose log it is, and how many nodes vote, how many observe, and how many agents there are.
#[derive(Drop)]
pub struct LogHead {
    group: Line,
    who: Who,
    voters: u8,
    observers: u8,
    agents: u8,
}

impl Model for LogHead {
    ghost use Rattle.log_text.specs.LogText as model;
    ghost use Rattle.log_text.specs.Heads.{who_of};

    ghost Value = { model.LogHead };

    ghost view = { λ h. record {
      group = h.group;
      who = who_of h.who;
      voters = h.voters;
      observers = h.observers;
      agents = h.agents;
    } };
}

/// Whether both names are the same bytes.
fn is_same_name(one: &[u8], two: &[u8]) -> bool
    ensures { IsTrue result ↔ (one.now ≡ two.now) }
{
    one == two
}

/// Whether both are the same node, or the same agent.
fn is_same_who(one: Who, two: Who) -> bool
    ensures { IsTrue result ↔ (who_of one ≡ who_of two) }
{
    match (one, two) {
        (Who::Node(one), Who::Node(two)) => one == two,
        (Who::Agent(one), Who::Agent(two)) => one == two,
        _ => false,
    }
}

impl LogHead {
    /// The head of these parts. The name has to be one that a group may have.
    pub fn new(group: &[u8], who: Who, voters: u8, observers: u8, agents: u8) -> LogHead
        requires { IsTrue (is_group group.now) }
        ensures { result ≡ record {
          group = group.now;
          who = who_of who;
          voters = voters;
          observers = observers;
          agents = agents;
        } }
    {
        let mut name = Line::new();
        name.put(group);
        LogHead {
            group: name,
            who,
            voters,
            observers,
            agents,
        }
    }

    /// The group's name.
    pub fn group(&self) -> &[u8]
        ensures { result.now ≡ self.now.group }
    {
        self.group.as_slice()
    }

    /// Whose log it is.
    pub fn who(&self) -> Who
        ensures { who_of result ≡ self.now.who }
    {
        self.who
    }

    /// How many nodes vote.
    pub fn voters(&self) -> u8
        ensures { result ≡ self.now.voters }
    {
        self.voters
    }

    /// How many nodes observe.
    pub fn observers(&self) -> u8
        ensures { result ≡ self.now.observers }
    {
        self.observers
    }

    /// How many agents there are.
    pub fn agents(&self) -> u8
        ensures { result ≡ self.now.agents }
    {
        self.agents
    }

    /// Whether both are the same: group, whose it is, and the three numbers.
    pub fn same(&self, other: &LogHead) -> bool
        ensures { IsTrue result ↔ (self.now ≡ other.now) }
    {
        is_same_name(self.group(), other.group())
            && is_same_who(self.who, other.who)
            && self.voters == other.voters
            && self.observers == other.observers
            && self.agents == other.agents
    }
}
