//! Ballots, votes and majorities.
ghost use Rattle.std.specs.Prelude.{◌≡◌, ◌<◌, ◌≤◌};
ghost use Rattle.metering_model.specs.Ballot.{ballot_of, is_not_below, majority};
ghost use Rattle.metering_model.specs.KeptText.{ballot_numbered};
ghost use Rattle.metering_model.specs.Limits.{most_nodes, most_rounds};

use period_cut::Cut;
use std::marker::Model;
use std::sync::Arc;

/// The number of one try of one node to have a cut chosen.
#[derive(Clone, Copy, Debug, PartialEq, Eq)]
pub struct Ballot {
    number: u32,
}

impl Model for Ballot {
    ghost use Rattle.std.specs.Prelude.{ℕ};

    ghost Value = { ℕ };

    ghost view = { λ ballot. ballot.number };

    ghost inverse = { λ number. record { number = number } };
}

impl Ballot {
    /// The ballot of a node in one of its rounds, at most 10,000. Nodes are numbered from 0, and are at most 99.
    pub fn of(round: u16, node: u8, nodes: u8) -> Ballot
        requires round { round ≤ most_rounds }
        requires node { node < nodes }
        requires nodes { nodes ≤ most_nodes }
        ensures { result ≡ ballot_of round node nodes }
    {
        Ballot {
            number: u32::from(round) * u32::from(nodes) + u32::from(node),
        }
    }

    /// The ballot of that number, as `number` returns it; `None` for 0, which stands for no ballot: none of a round from 1 on
    /// has it.
    pub fn numbered(number: u32) -> Option<Ballot>
        ensures { result ≡ ballot_numbered number }
    {
        if number == 0 {
            None
        } else {
            Some(Ballot { number })
        }
    }

    /// The number of the ballot.
    pub fn number(self) -> u32
        ensures { result ≡ self }
    {
        self.number
    }

    /// Whether the ballot is not below the one promised; true where none is.
    pub fn is_not_below(self, promised: Option<Ballot>) -> bool
        ensures { result ≡ is_not_below self promised }
    {
        match promised {
            Some(promised) => promised.number() <= self.number(),
            None => true,
        }
    }
}

/// How many nodes are a majority of so many.
pub fn majority(nodes: u8) -> u8
    ensures { result ≡ majority nodes }
{
    nodes / 2 + 1
}

/// A cut that was accepted at a ballot.
#[derive(Drop)]
pub struct Vote {
    /// The ballot at which it was accepted.
    pub ballot: Ballot,
    /// The cut, shared.
    pub cut: Arc<Cut>,
}

impl Model for Vote {
    ghost use Rattle.std.specs.Arc.{arc_value};
    ghost use Rattle.metering_model.specs.Ballot as model;

    ghost Value = { model.Vote };

    ghost view = { λ vote. record { ballot = vote.ballot; cut = arc_value vote.cut } };
}
