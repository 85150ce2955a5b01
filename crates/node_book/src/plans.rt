//! What a group is to do.

ghost use Rattle.std.specs.Prelude.{◌≡◌};
ghost use Rattle.node_book.specs.Books.{node_total};
ghost use Rattle.node_book.specs.Logs.{plan_of};

use group_core::Sheet;
use sheet_text::Issuer;
use std::sync::Arc;

/// What a group is to do: how many of its nodes vote and how many only observe, its sheet and its issuer, the texts of
/// each agent's batches in order, how many periods each node is to export, and how often a gate is asked before a node
/// goes on.
#[derive(Drop)]
pub struct Plan {
    /// How many nodes vote.
    pub voters: u8,
    /// How many nodes only observe.
    pub observers: u8,
    pub sheet: Arc<Sheet>,
    pub issuer: Arc<Issuer>,
    /// For each agent, from 1, the texts of its batches in order.
    pub journals: Vec<Vec<Vec<u8>>>,
    /// How many periods each node is to export, from period 0 on.
    pub periods: u16,
    /// How many times at most a node asks its gate before it goes on.
    pub turns: u32,
}

impl Plan {
    /// How many nodes the group has: voters and observers.
    pub fn nodes(&self) -> usize
        ensures { result ≡ node_total (plan_of self.now) }
    {
        usize::from(self.voters) + usize::from(self.observers)
    }
}
