//! What a step adds to the log of a process.

ghost use Rattle.std.specs.Prelude.{◌≡◌};
ghost use Rattle.std.specs.Option.{option_map};
ghost use Rattle.log_text.specs.Increments.{increment_of};
ghost use Rattle.group_process.specs.Added.{increment_after};
ghost use Rattle.group_process.specs.Selves.{kept_of_node};

use crate::nodes::NodeProcess;
use group_node::Node;
use log_text::Increment;

/// What a step added to what a process keeps, if anything.
#[derive(Clone, Copy, Drop)]
pub enum Added {
    /// All stayed.
    Nothing,
    /// The next round was begun.
    Round,
    /// A promise or a vote was made.
    Ballots,
    /// A period's cut was learned.
    Learned,
    /// The batch of this agent and sequence was taken.
    Batch { agent: u8, seq: u32 },
}

/// The line of the cut that a node learned last.
fn last_learned(node: &Node) -> Option<Increment<'_>>
    ensures { option_map increment_of result
        ≡ increment_after Added.Learned
        (record { agents = node.now.agents; kept = node.now.node.kept }) }
{
    let periods = node.current_period();
    if periods == 0 {
        return None;
    }
    match node.learned(periods - 1) {
        Some(cut) => Some(Increment::Learned(periods - 1, cut)),
        None => None,
    }
}

impl NodeProcess {
    /// The lines that what was added by the last step has in a log. It is lent from what the node keeps.
    pub fn increment(&self, added: Added) -> Option<Increment<'_>>
        ensures { option_map increment_of result ≡ increment_after added (kept_of_node self.now) }
    {
        match added {
            Added::Nothing => None,
            Added::Round => Some(Increment::Round(self.node.round())),
            Added::Ballots => Some(Increment::Ballots(
                self.node.current_period(),
                self.node.acceptor(),
            )),
            Added::Learned => last_learned(&self.node),
            Added::Batch { agent, seq } => match self.held(agent, seq) {
                Some(batch) => Some(Increment::Batch(batch)),
                None => None,
            },
        }
    }
}
