//! The model of focusd: what a batch is, what it costs, and what a group of nodes may do.
//!
//! The definitions stand in `specs/`, one module a subject. Here are the plain types that code and
//! definitions share, and in `laws` what ties the definitions to one another.
#![tactic(auto)]

use thiserror::Error;

pub mod laws;

/// What a reading charges for.
#[derive(Clone, Copy, Debug, PartialEq, Eq, Drop)]
pub enum Kind {
    Usage,
    Purchase,
    Credit,
    Tax,
    Adjustment,
}

/// The format of a batch's text, which the first field of its head names.
#[derive(Clone, Copy, Debug, PartialEq, Eq, Drop)]
pub enum Version {
    /// Readings of nine fields.
    B1,
    /// Readings of ten fields, the last of which is their region.
    B2,
}

/// A kind that is charged by a price.
#[derive(Clone, Copy, Debug, PartialEq, Eq, Drop)]
pub enum PricedKind {
    Usage,
    Purchase,
}

/// Whether a charge is new, or corrects charges of an earlier billing period. FOCUS's ChargeClass is null
/// for a new one.
#[derive(Clone, Copy)]
pub enum ChargeClass {
    New,
    Correction,
}

/// FOCUS's ServiceCategory, as far as a price sheet may name it.
#[derive(Clone, Copy, Debug, PartialEq, Eq, Drop)]
pub enum ServiceCategory {
    Compute,
    Storage,
    Networking,
    Databases,
    Other,
}

/// FOCUS's CommitmentDiscountCategory.
#[derive(Clone, Copy, Debug, PartialEq, Eq, Drop)]
pub enum CommitmentCategory {
    Spend,
    Usage,
}

/// What is wrong with the text of a number.
#[derive(Clone, Copy, Debug, PartialEq, Eq, Drop, Error)]
pub enum NumberFault {
    /// F1: it is no decimal of the wanted form.
    #[error("F1")]
    Shape,
    /// F2: it is a decimal beyond the limits of its type.
    #[error("F2")]
    Range,
}

/// Which rule of the batch format a text breaks.
#[derive(Clone, Copy, Debug, PartialEq, Eq, Drop, Error)]
pub enum BatchCode {
    /// V1: no head line within the limits.
    #[error("V1")]
    Head,
    /// V2: fewer or more lines than the head counts, or a record's line without its line feed.
    #[error("V2")]
    Count,
    /// V3: no such kind of record, or another number of fields than it has.
    #[error("V3")]
    Fields,
    /// V4: no valid moment of UTC, or an end that is not after its start.
    #[error("V4")]
    Time,
    /// V5: no number within the limits of its field.
    #[error("V5")]
    Number,
    /// V6: outside the tags, a byte that is no text, or a text that is empty or not empty against its rule.
    #[error("V6")]
    Text,
    /// V7: tags of another form, or whose keys do not rise.
    #[error("V7")]
    Tags,
    /// V8: more than 65,536 bytes.
    #[error("V8")]
    TooLong,
}

/// The first fault of a text that is no batch, and its line, counted from 1.
#[derive(Clone, Copy, Debug, PartialEq, Eq, Drop, Error)]
#[error("{code} line {line}")]
pub struct BatchFault {
    pub code: BatchCode,
    pub line: u32,
}

/// Which rule of the journals a record breaks.
#[derive(Clone, Copy, Debug, PartialEq, Eq, Drop, Error)]
pub enum BrokenRule {
    /// An amendment names no earlier reading of its agent, or gives one of usage or a purchase a negative value.
    #[error("bad target")]
    BadTarget,
    /// Usage or a purchase has no price in force on the day that it starts, or names a commitment that the sheet does
    /// not have for its SKU.
    #[error("unpriced")]
    Unpriced,
}

/// What is wrong with the text of a node's kept state.
#[derive(Clone, Copy, Debug, PartialEq, Eq, Drop, Error)]
pub enum KeptCode {
    /// H1: no head line within the limits.
    #[error("H1")]
    Head,
    /// H2: no line with a sequence for each agent.
    #[error("H2")]
    Cut,
    /// H3: no batch stands here.
    #[error("H3")]
    Batch,
    /// H4: the batch is of no agent of the head line, or does not come after the one before it.
    #[error("H4")]
    Order,
    /// H5: bytes after the last batch.
    #[error("H5")]
    Extra,
}

/// The first fault of a text of a node's kept state, and its line, counted from 1.
#[derive(Clone, Copy, Debug, PartialEq, Eq, Drop, Error)]
#[error("{code} line {line}")]
pub struct KeptTextFault {
    pub code: KeptCode,
    pub line: u64,
}

/// Why the group refuses an event. The world stays as it was.
#[derive(Clone, Copy, Debug, PartialEq, Eq, Drop, Error)]
pub enum Refusal {
    /// G1: the journaled text is no batch.
    #[error("G1 {0}")]
    BadBatch(BatchFault),
    /// G2: the agent has to journal sequence `wanted` next.
    #[error("G2 wanted {wanted}")]
    WrongSeq { wanted: u32 },
    /// G3: an amendment names no earlier reading of its agent, or gives usage or a purchase a negative value.
    #[error("G3")]
    BadTarget,
    /// G4: usage or a purchase has no price on the day that it starts, or names a commitment that is none of its SKU's.
    #[error("G4")]
    Unpriced,
    /// G5: the packet was never sent.
    #[error("G5")]
    NoPacket,
    /// G6: the group has fewer nodes.
    #[error("G6")]
    NoNode,
    /// G7: the node has learned only the periods below `learned`.
    #[error("G7 learned {learned}")]
    NotClosed { learned: u16 },
    /// G8: this batch, and perhaps later ones up to the cut, has not reached the node.
    #[error("G8 agent {agent} seq {seq}")]
    Missing { agent: u8, seq: u32 },
    /// G9: the node has learned the last period.
    #[error("G9")]
    AllClosed,
    /// G10: the node has used up its rounds.
    #[error("G10")]
    NoBallot,
    /// G11: no packet can be sent any more.
    #[error("G11")]
    WorldFull,
    /// G12: the batch's agent is none of the world's.
    #[error("G12")]
    NoAgent,
    /// G13: the node has no vote, so it has no ballots.
    #[error("G13")]
    Observer,
    /// G14: the text is of nothing that a node keeps.
    #[error("G14 {0}")]
    BadKept(KeptTextFault),
    /// G15: the text is not of what this node keeps now.
    #[error("G15")]
    NotKept,
}

/// Who acts on the group: an agent, numbered from 1, or a node, numbered from 0.
#[derive(Clone, Copy, Debug, PartialEq, Eq, Drop)]
pub enum Worker {
    Agent(u8),
    Node(u8),
}
