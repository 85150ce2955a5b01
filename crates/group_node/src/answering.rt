//! Which packets a node answers.

ghost use Rattle.std.specs.Prelude.{◌≡◌, ◌<◌};
ghost use Rattle.metering_model.specs.Ballot.{is_above};
ghost use Rattle.group_node.specs.Nodes.{IsNodeAmong};
ghost use Rattle.group_node.specs.Inner.Answering.{has_learned, promises, accepts, proposes_at};

use crate::nodes::Node;
use node_kept::Ballot;
use period_cut::Period;

fn is_above(ballot: Ballot, promised: Option<Ballot>) -> bool
    ensures { result ≡ is_above ballot promised }
{
    match promised {
        Some(promised) => promised.number() < ballot.number(),
        None => true,
    }
}

impl Node {
    /// Whether the node has learned that period.
    pub(crate) fn has_learned(&self, period: Period) -> bool
        ensures { result ≡ has_learned period self.now.node }
    {
        self.learned(period.number()).is_some()
    }

    /// Whether the period is the node's current one, and its acceptor promises the ballot.
    pub(crate) fn promises(&self, period: Period, ballot: Ballot) -> bool
        ensures { result ≡ promises period ballot self.now.node }
    {
        let kept = &self.kept;
        period.number() == self.current_period() && is_above(ballot, kept.acceptor.promised())
    }

    /// Whether the period is the node's current one, and its acceptor accepts at the ballot.
    pub(crate) fn accepts(&self, period: Period, ballot: Ballot) -> bool
        ensures { result ≡ accepts period ballot self.now.node }
    {
        let kept = &self.kept;
        period.number() == self.current_period() && ballot.is_not_below(kept.acceptor.promised())
    }

    /// Whether that promise would make the node send its proposal.
    pub(crate) fn proposes(&self, from: u8, period: Period, ballot: Ballot) -> bool
        requires { from < self.now.voters }
        ensures answer { result ≡ proposes_at from period ballot self.now.node }
        ensures within { IsNodeAmong self.now }
    {
        match &self.attempt {
            Some(attempt) => {
                period.number() == self.current_period()
                    && attempt.ballot().number() == ballot.number()
                    && attempt.proposes(from)
            }
            None => false,
        }
    }
}
