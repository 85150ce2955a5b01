//! Whether a node may begin a ballot.

ghost use Rattle.std.specs.Prelude.{◌≡◌, Ok, Err, MatchResult};
ghost use Rattle.group_node.specs.Alone.{period_to_begin};

use crate::nodes::Node;
use metering_model::Refusal;
use period_cut::Period;

/// A node begins no more ballots than this.
const MOST_ROUNDS: u16 = 10_000;

impl Node {
    /// The period for which node i may begin its next ballot, the first that it has not learned. It may begin none that
    /// observes, has learned all periods, or has begun 10,000 ballots: the first of these that holds is the refusal.
    pub fn period_to_begin(&self, i: u8) -> Result<Period, Refusal>
        ensures { MatchResult result (λ period. period_to_begin i self.now ≡ Ok period)
            (λ refusal. period_to_begin i self.now ≡ Err refusal) }
    {
        if i >= self.voters {
            return Err(Refusal::Observer);
        }
        let Some(period) = Period::new(self.current_period()) else {
            return Err(Refusal::AllClosed);
        };
        if self.round() >= MOST_ROUNDS {
            return Err(Refusal::NoBallot);
        }
        Ok(period)
    }
}
