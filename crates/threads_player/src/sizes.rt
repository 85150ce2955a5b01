//! How large a group is.

/// How large a group is: how many nodes and agents it has, how many batches each agent journals, and how many periods
/// are exported.
#[derive(Clone, Copy, Debug, Drop, PartialEq)]
pub struct Size {
    /// From 1 to 9, all of which vote.
    pub nodes: u8,
    /// From 1 to 9.
    pub agents: u8,
    /// How many batches each agent journals, from 1 to 99.
    pub batches: u8,
    /// How many periods are exported, from 1 to 12.
    pub periods: u8,
}
