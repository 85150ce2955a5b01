//! Which nodes vote: all but the observers. What one of these answers stands beside what a voter does, in `voting.rt`
//! and `proposing.rt`.

ghost use Rattle.std.specs.Prelude.{◌≡◌, nat_lt};

use crate::nodes::Node;

impl Node {
    /// Whether node i of its group is a voter: the first of them are.
    pub(crate) fn votes(&self, i: u8) -> bool
        ensures { result ≡ nat_lt i self.now.voters }
    {
        i < self.voters
    }
}
