//! What a node keeps, in parts and as one.
ghost use Rattle.std.specs.Prelude.{◌≡◌, ◌↔◌, map, All, IsTrue};
ghost use Rattle.std.specs.Arc.{arc_value};
ghost use Rattle.metering_model.specs.KeptText.{HasText};
ghost use Rattle.batch_store.specs.Limits.{IsCut};
ghost use Rattle.node_kept.specs.Kept.{IsKept};

use batch_store::{Cut, Store};
use paxos_ballot::Acceptor;
use std::marker::Model;
use std::sync::Arc;

/// The parts of what a node keeps. No limit holds of them here.
#[derive(Drop)]
pub struct Parts {
    /// How many ballots the node has begun.
    pub round: u16,
    /// The cuts that it has learned, of periods 0, 1 and so on.
    pub learned: Vec<Arc<Cut>>,
    /// What it has promised and accepted in its current period, the first that it has not learned.
    pub acceptor: Acceptor,
    /// The batches that it holds.
    pub store: Store,
}

impl Model for Parts {
    ghost use Rattle.std.specs.Prelude.{map};
    ghost use Rattle.std.specs.Arc.{arc_value};
    ghost use Rattle.metering_model.specs.KeptText.{KeptAmong};

    ghost Value = { KeptAmong };

    ghost view = { λ p. record {
      agents = p.store.agents;
      kept = record {
        round = p.round;
        learned = map arc_value p.learned.items;
        acceptor = p.acceptor;
        holding = p.store.batches;
      };
    } };
}

/// Whether both are the same cuts.
fn are_same(one: &[Arc<Cut>], two: &[Arc<Cut>]) -> bool
    ensures { IsTrue result ↔ (map arc_value one.now ≡ map arc_value two.now) }
{
    if one.len() != two.len() {
        return false;
    }
    for (index, cut) in one.iter().enumerate() {
        if !cut.same(&two[index]) {
            return false;
        }
    }
    true
}

/// Learns that these cuts keep the limits of their type. Nothing is done.
fn know_cuts(cuts: &[Arc<Cut>])
    ensures { All IsCut (map arc_value cuts.now) }
{
    for cut in cuts {
        cut.agents();
    }
}

/// Learns that what is within the limits of a `Kept` has a text: cuts and store keep those of their types. Nothing is
/// done.
fn know_text(parts: &Parts)
    requires { IsKept parts.now }
    ensures { HasText parts.now }
{
    parts.store.agents();
    know_cuts(&parts.learned);
    if let Some(vote) = parts.acceptor.vote() {
        vote.cut.agents();
    }
}

impl Parts {
    /// Whether both are the same: rounds, cuts, ballots and batches.
    pub fn same(&self, other: &Parts) -> bool
        ensures { IsTrue result ↔ (self.now ≡ other.now) }
    {
        self.round == other.round
            && are_same(&self.learned, &other.learned)
            && self.acceptor.same(&other.acceptor)
            && self.store.same(&other.store)
    }
}

/// What a node keeps: a round up to 10,000, at most 1,200 learned cuts, ballots from 1 to 990,098, and as many agents
/// in the learned cuts and in the vote's cut as in the store. So it has a text.
#[derive(Drop)]
pub struct Kept {
    parts: Parts,
}

impl Model for Kept {
    ghost use Rattle.metering_model.specs.KeptText.{HasText};
    ghost use Rattle.metering_model.specs.KeptText.{KeptAmong};

    ghost Value = { KeptAmong };

    ghost view = { λ k. k.parts };

    ghost invariant = { λ k. HasText k.parts };
}

impl Kept {
    /// These parts, which have to be within the limits.
    pub fn of(parts: Parts) -> Kept
        requires { IsKept parts }
        ensures { result ≡ parts }
    {
        know_text(&parts);
        Kept { parts }
    }

    /// The parts, which are within the limits.
    pub fn into_parts(self) -> Parts
        ensures value { result ≡ self }
        ensures kept { IsKept result }
    {
        self.parts
    }

    /// The parts, lent.
    pub fn parts(&self) -> &Parts
        ensures value { result.now ≡ self.now }
        ensures text { HasText self.now }
    {
        &self.parts
    }

    /// Whether both are the same: rounds, cuts, ballots and batches.
    pub fn same(&self, other: &Kept) -> bool
        ensures same { IsTrue result ↔ (self.now ≡ other.now) }
        ensures texts { HasText self.now × HasText other.now }
    {
        let (one, two) = (self.parts(), other.parts());
        one.same(two)
    }
}
