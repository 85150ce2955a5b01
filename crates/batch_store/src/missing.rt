//! What a store lacks.

ghost use Rattle.std.specs.Prelude.{◌≡◌, length};
ghost use Rattle.metering_model.specs.Step.{first_missing};

use crate::Store;
use period_cut::Cut;

impl Store {
    /// The absent batch up to a cut that is the least, by agent and then by sequence; None where the store has each
    /// batch up to it.
    pub fn first_missing(&self, cut: &Cut) -> Option<(u8, u32)>
        requires { length cut.now ≡ self.now.agents }
        ensures { result ≡ first_missing self.now.batches cut.now }
    {
        for agent in 1..cut.agents() + 1 {
            let absent = self.first_absent(agent);
            if absent <= cut.get(agent) {
                return Some((agent, absent));
            }
        }
        None
    }
}
